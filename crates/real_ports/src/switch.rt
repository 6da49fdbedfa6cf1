//! Query servers of two kinds behind one port.

ghost use Rattle.std.specs.Prelude.{◌≡◌, ℕ, List};

use std::alloc::Global;
use std::marker::PhantomData;
use view_ports::{SLOT_COUNT, Servers, ServersFault};

/// The path that a design's language has where its query server is built in.
pub trait BuiltInPath {
    /// The path's bytes.
    ghost bytes: { List ℕ };

    /// The path.
    fn path() -> &'static str
        ensures { result.now ≡ bytes };
}

/// Query servers of two kinds: children that are started by the path of `P` are those of `A`, and children that are
/// started by any other path those of `B`. The count of faults is that of both together.
#[derive(Drop)]
pub struct Switch<P, A, B> {
    built_in: A,
    others: B,
    // Of each slot, whether its child was started by the path of `P`.
    sides: [bool; SLOT_COUNT],
    path: PhantomData<P>,
}

impl<P: BuiltInPath, A: Servers, B: Servers> Switch<P, A, B> {
    ghost use Rattle.std.specs.Prelude.{[]};
    ghost use Rattle.real_ports.specs.Switch.{Follows};

    /// Servers without children, where neither part has any.
    pub fn over(built_in: A, others: B) -> Switch<P, A, B>
        ensures calls { A.may_follow built_in [] → B.may_follow others []
            → Follows P.bytes (A.may_follow result.built_in)
            (B.may_follow result.others) result.sides [] }
        ensures parts { (result.built_in ≡ built_in) × (result.others ≡ others) }
    {
        Switch {
            built_in,
            others,
            sides: [false; SLOT_COUNT],
            path: PhantomData,
        }
    }
}

impl<P: BuiltInPath, A: Servers, B: Servers> Servers for Switch<P, A, B> {
    ghost use Rattle.std.specs.Prelude.{◌≡◌, ◌≢◌, ◌<◌, ℕ, List, All, IfOk, is_ok};
    ghost use Rattle.real_ports.specs.Switch.{BothGo, FollowsBoth, HonestAt, OnePartHad, OnePartStarted, faults_of_both, functions_at};
    ghost use Rattle.view_ports.specs.Calls.{Call, child, start, send, receive, stop};
    ghost use Rattle.view_ports.specs.Faults.{CountsOnly, HasCauseOf};
    ghost use Rattle.view_ports.specs.Honest.{AnswersChild};
    ghost use Rattle.view_ports.specs.Servers.{line_of};

    ghost may_follow = { FollowsBoth A.may_follow B.may_follow P.bytes };

    ghost faults = { faults_of_both A.faults B.faults };

    ghost functions = { functions_at P.bytes A.functions B.functions };

    ghost honest = { HonestAt P.bytes A.honest B.honest };

    fn start(&mut self, alloc: Global, slot: u32, path: &str) -> Result<(), ServersFault>
        requires { slot < SLOT_COUNT }
        ensures told { BothGo A.may_follow B.may_follow P.bytes (start slot path.now (is_ok result))
            self.old self.new }
        ensures cause { HasCauseOf ServersFault.Failed (faults_of_both A.faults B.faults self.old)
            (faults_of_both A.faults B.faults self.new) result }
        ensures counted { CountsOnly ServersFault.Failed (faults_of_both A.faults B.faults self.old)
            (faults_of_both A.faults B.faults self.new) result }
        ensures part { OnePartStarted A.may_follow B.may_follow P.bytes slot path.now (is_ok result)
            self.old self.new }
    {
        let is_built_in = path == P::path();
        self.sides[slot as usize] = is_built_in;
        if is_built_in {
            self.others.stop(slot);
            self.built_in.start(alloc, slot, path)
        } else {
            self.built_in.stop(slot);
            self.others.start(alloc, slot, path)
        }
    }

    fn send(&mut self, alloc: Global, slot: u32, line: &[u8]) -> Result<(), ServersFault>
        requires slot { slot < SLOT_COUNT }
        requires line { All (λ byte. byte ≢ 10) line.now }
        ensures told { BothGo A.may_follow B.may_follow P.bytes (send slot line.now (is_ok result))
            self.old self.new }
        ensures cause { HasCauseOf ServersFault.Failed (faults_of_both A.faults B.faults self.old)
            (faults_of_both A.faults B.faults self.new) result }
        ensures counted { CountsOnly ServersFault.Failed (faults_of_both A.faults B.faults self.old)
            (faults_of_both A.faults B.faults self.new) result }
        ensures part { OnePartHad A.may_follow B.may_follow (send slot line.now (is_ok result))
            self.old self.new }
    {
        if self.sides[slot as usize] {
            self.built_in.send(alloc, slot, line)
        } else {
            self.others.send(alloc, slot, line)
        }
    }

    fn receive(&mut self, alloc: Global, slot: u32) -> Result<Vec<u8>, ServersFault>
        requires { slot < SLOT_COUNT }
        ensures told { BothGo A.may_follow B.may_follow P.bytes (receive slot (line_of result))
            self.old self.new }
        ensures answers { IfOk result (λ line. (calls : List Call)
            → FollowsBoth A.may_follow B.may_follow P.bytes self.old calls
            → AnswersChild (functions_at P.bytes A.functions B.functions)
            (HonestAt P.bytes A.honest B.honest) (child slot calls) line.items) }
        ensures cause { HasCauseOf ServersFault.Failed (faults_of_both A.faults B.faults self.old)
            (faults_of_both A.faults B.faults self.new) result }
        ensures counted { CountsOnly ServersFault.Failed (faults_of_both A.faults B.faults self.old)
            (faults_of_both A.faults B.faults self.new) result }
        ensures part { OnePartHad A.may_follow B.may_follow (receive slot (line_of result))
            self.old self.new }
    {
        if self.sides[slot as usize] {
            self.built_in.receive(alloc, slot)
        } else {
            self.others.receive(alloc, slot)
        }
    }

    fn stop(&mut self, slot: u32)
        requires { slot < SLOT_COUNT }
        ensures told { BothGo A.may_follow B.may_follow P.bytes (stop slot)
            self.old self.new }
        ensures cause { faults_of_both A.faults B.faults self.new
            ≡ faults_of_both A.faults B.faults self.old }
        ensures part { OnePartHad A.may_follow B.may_follow (stop slot)
            self.old self.new }
    {
        if self.sides[slot as usize] {
            self.built_in.stop(slot);
        } else {
            self.others.stop(slot);
        }
    }
}
