//! Random writes of sales with queries of them between, beside what mapping all documents afresh answers.

use crate::left::put_replies;
use crate::reduced::{QUERIES, Sale, put_answer, put_query};
use crate::requests::{Rev, put_rev};
use crate::scripts::Dice;
use crash_disk::MemoryFolder;
use map_server::PickServers;
use std::alloc::{AllocError, Global};
use std::test::Fail;

const DESIGN: &str =
    r#"{"put":{"_id":"_design/sales","language":"pick","views":{"sum":{"map":"emit doc.day, doc.amount","reduce":"_sum"},"stats":{"map":"emit [doc.day, doc.amount], doc.amount","reduce":"_stats"}}}}
"#;

const DESIGNED: &str =
    r#"{"ok":true,"id":"_design/sales","rev":"1-00000000000000000000000000000001"}
"#;

/// How many days and amounts there are. No amount is less than half of their number below 0.
const DAYS: u64 = 45;

const AMOUNTS: u64 = 41;

/// Request lines, and the replies to them. The last write of the document in each place of `sales` has this sale, or is a deletion.
#[derive(Drop)]
pub struct Sales {
    dice: Dice,
    sales: Vec<Option<Sale>>,
    revs: Vec<Rev>,
    writes: u64,
    lines: String,
    replies: String,
}

impl Sales {
    /// The design is put, and then so many documents.
    pub fn new(alloc: Global, seed: u64, count: usize) -> Result<Sales, AllocError> {
        let mut sales = Sales {
            dice: Dice::new(seed),
            sales: Vec::new(alloc),
            revs: Vec::new(alloc),
            writes: 1,
            lines: String::from_str(alloc, DESIGN)?,
            replies: String::from_str(alloc, DESIGNED)?,
        };
        for place in 0..count {
            let sale = sales.sale();
            sales.put_line(place, None, Some(sale))?;
            let rev = sales.accept(place, 1)?;
            sales.sales.push(Some(sale))?;
            sales.revs.push(rev)?;
        }
        Ok(sales)
    }

    fn sale(&mut self) -> Sale {
        let day = self.dice.below(DAYS) as i64;
        let amount = (self.dice.below(AMOUNTS) as i64).wrapping_sub(AMOUNTS as i64 / 2);
        Sale { day, amount }
    }

    /// Appends the line of a write of this document, over a revision where it is live.
    fn put_line(
        &mut self,
        place: usize,
        over: Option<Rev>,
        sale: Option<Sale>,
    ) -> Result<(), AllocError> {
        let lines = &mut self.lines;
        match sale {
            Some(Sale { day, amount }) => {
                write!(lines, "{{\"put\":{{\"_id\":\"d{place:03}\"")?;
                put_rev(lines, "_rev", over)?;
                writeln!(lines, ",\"day\":{day},\"amount\":{amount}}}}}")
            }
            None => {
                write!(lines, "{{\"delete\":\"d{place:03}\"")?;
                put_rev(lines, "rev", over)?;
                writeln!(lines, "}}")
            }
        }
    }

    /// Appends the reply to a write of this document, which is one of this generation.
    fn accept(&mut self, place: usize, generation: u64) -> Result<Rev, AllocError> {
        self.writes = self.writes.saturating_add(1);
        let number = self.writes;
        let rev = Rev { generation, number };
        writeln!(
            self.replies,
            "{{\"ok\":true,\"id\":\"d{place:03}\",\"rev\":\"{rev}\"}}"
        )?;
        Ok(rev)
    }

    /// Writes a document again. It is deleted one time in three, where it is live.
    fn change(&mut self, place: usize) -> Result<(), AllocError> {
        let new = self.sale();
        let goes = self.dice.below(3) == 0;
        if let (Some(sale), Some(rev)) = (self.sales.get(place), self.revs.get(place)) {
            let (sale, rev) = (*sale, *rev);
            let new = if goes && sale.is_some() {
                None
            } else {
                Some(new)
            };
            self.put_line(place, sale.map(|_sale| rev), new)?;
            let rev = self.accept(place, rev.generation.saturating_add(1))?;
            if let (Some(sale), Some(last)) = (
                self.sales.get_mut(place),
                self.revs.get_mut(place),
            ) {
                *sale = new;
                *last = rev;
            }
        }
        Ok(())
    }

    /// Writes so many documents again, any of them.
    pub fn change_some(&mut self, times: usize) -> Result<(), AllocError> {
        for _ in 0..times {
            let count = self.sales.len() as u64;
            if count > 0 {
                let place = self.dice.below(count) as usize;
                self.change(place)?;
            }
        }
        Ok(())
    }

    /// Asks all queries.
    pub fn ask(&mut self, alloc: Global) -> Result<(), AllocError> {
        for query in QUERIES {
            put_query(&mut self.lines, query)?;
            self.lines.push_str("\n")?;
            put_answer(alloc, &self.sales, query, &mut self.replies)?;
        }
        Ok(())
    }

    /// Has an engine that is opened anew over the folder answer the lines so far, and forgets them. It is to answer as all documents
    /// mapped afresh.
    pub fn settle(&mut self, alloc: Global, folder: &mut MemoryFolder) -> Result<(), Fail> {
        let mut servers = PickServers::new(alloc, Vec::new(alloc))?;
        let mut given = Vec::new(alloc);
        put_replies(alloc, folder, &mut servers, self.lines.as_str(), &mut given)?;
        same_lines(&String::from_utf8(given)?, &self.replies)?;
        self.lines.clear();
        self.replies.clear();
        Ok(())
    }
}

/// Fails the test where other lines are given.
fn same_lines(given: &str, want: &str) -> Result<(), Fail> {
    let mut wanted = want.lines();
    for line in given.lines() {
        if wanted.next() != Some(line) {
            return Err(Fail::new(format_args!("{line} is given")));
        }
    }
    if given != want {
        return Err(Fail::from("more lines are wanted"));
    }
    Ok(())
}
