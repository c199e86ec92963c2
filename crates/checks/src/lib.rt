// The checks that the first 40,960 bytes of a table decide, a file for each code of 01. Knows nothing of what an update does.
// The other codes are checked where their inputs are known: 1 in `ranges` range.rt and `table` sound.rt, 5 in `updates` kind.rt and `table` bib.rt, 12 in `listing` list.rt,
// 13 in `dayfile` record.rt and in `report`, 14 in `bundles` check.rt.
#![tactic(auto)]

pub mod bearer; // bearer.rt: code 18
pub mod busy; // busy.rt: code 7
pub mod client; // client.rt: code 2
pub mod given; // given.rt: code 3
pub mod joinable; // joinable.rt: code 11
pub mod joined; // joined.rt: code 4
pub mod line; // line.rt: code 15
pub mod log; // log.rt: code 9
pub mod marked; // marked.rt: code 16
pub mod name; // name.rt: code 17
pub mod next; // next.rt: code 10
pub mod open; // open.rt: code 6
pub mod stale; // stale.rt: code 8
