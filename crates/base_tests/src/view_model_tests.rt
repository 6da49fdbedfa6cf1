//! The laws of rows and pictures, of a kind of servers that there is.

use view_model::{
    complaints_meet_all, pictures_are_kept, pictures_stay_true, updates_are_afresh,
    updates_keep_rows,
};
use view_ports::FieldServers;

#[test]
fn laws_hold_of_field_servers() {
    updates_are_afresh::<FieldServers>();
    updates_keep_rows::<FieldServers>();
    pictures_stay_true::<FieldServers>();
    complaints_meet_all::<FieldServers>();
    pictures_are_kept::<FieldServers>();
}
