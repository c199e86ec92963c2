// The table's type: its sizes, and the parts of a fresh day (01: "64 boxes, 16 tablets, 1,000 bibs and 4,096 updates at most").
ghost use Rattle.std.specs.Prelude.{cond, ◌≡◌, [], ◌∷◌, replicate, set};
ghost use Rattle.cells.specs.Sizes.{clients, closed, main, revisions, state_out};
ghost use Rattle.cells.specs.Range.{signature};

#[derive(Drop)]
pub struct Table;

impl Table {
    // "a lent buffer of exactly 65,536 bytes"
    pub const BYTES: usize = 65536;

    // The bytes of the lower half, which keeps the revisions; the updates as entered are behind it.
    pub const LOWER: usize = 40960;

    pub const REVISIONS: usize = 64;

    pub const CLIENTS: usize = 16;

    pub const BIBS: u16 = 1000;

    pub const UPDATES: usize = 4096;

    // Bytes of an update as it was entered.
    pub const ENTRY: usize = 6;

    // Bytes of a revision's row of inherited updates: a bit for each update.
    pub const ROW: usize = 512;

    // Bytes of a row of flags: a bit for each revision.
    pub const FLAGS: usize = 8;

    // The state of a revision whose number was never given out.
    pub const STATE_NEVER: usize = 0;

    // The state of a revision that is out.
    pub const STATE_OUT: usize = 1;

    // The state of a revision that was joined, or of a mark that was dropped.
    pub const STATE_JOINED: usize = 2;

    // The state of a mark, which is out.
    pub const STATE_MARKED: usize = 3;

    // Letters of a mark's name.
    pub const NAME: usize = 4;

    // In the cell of a client's open transaction: there is none.
    pub const CLOSED: usize = 64;

    // In a place of the queue that is not in use: a number, but not the main revision's, which is never joined.
    pub const UNQUEUED: u8 = 1;

    // In the counters: the word that counts updates taken.
    pub const UPDATES_TAKEN: usize = 0;

    // In the counters: the byte that counts revisions out.
    pub const REVISIONS_OUT: usize = 2;

    // In the counters: the byte that counts revision numbers given out.
    pub const NUMBERS_GIVEN: usize = 3;

    // The limit of a state cell: every state is below it.
    pub const STATE_LIMIT: usize = Table::STATE_MARKED + 1;

    // The limit of a cell that says whether a row is in use: 0 or 1.
    pub const USED_LIMIT: usize = 2;

    // The limit of the cell that says whether a day is a single-main day: 0 or 1.
    pub const SINGLE_LIMIT: usize = 2;

    // The limit of a count of updates: 0 to 4,096.
    pub const UPDATES_LIMIT: usize = Table::UPDATES + 1;

    // The limit of a count of revisions, 0 to 64, and of an open transaction's cell, which may be closed.
    pub const REVISIONS_LIMIT: usize = Table::REVISIONS + 1;

    // Where the count of boxes started stops (02, U14).
    pub const STARTED_MOST: usize = 65535;

    // The main revision is out, and no other number was given out.
    pub fn fresh_state() -> [u8; Table::REVISIONS]
        ensures { result ≡ set (replicate revisions 0) main state_out }
    {
        let mut state = [Table::STATE_NEVER as u8; Table::REVISIONS];
        state[0] = Table::STATE_OUT as u8;
        state
    }

    // The main revision stands alone in the layout.
    pub fn fresh_layout() -> [u8; Table::REVISIONS]
        ensures { result ≡ replicate revisions main }
    {
        [0; Table::REVISIONS]
    }

    // No update was taken; one revision is out, and one number given out.
    pub fn fresh_counters() -> [u8; 4]
        ensures { result ≡ 0 ∷ 0 ∷ 1 ∷ 1 ∷ [] }
    {
        [0, 0, 1, 1]
    }

    // 02, U8: "Fresh gains a choice of such a day."
    pub fn fresh_single(single: bool) -> [u8; 1]
        ensures { result ≡ cond single 1 0 ∷ [] }
    {
        if single { [1] } else { [0] }
    }

    // 02, U14: one box was started, the main one.
    pub fn fresh_started() -> [u8; 2]
        ensures { result ≡ 1 ∷ 0 ∷ [] }
    {
        [1, 0]
    }

    // A client without events may start anywhere: every caught-up flag, eight to a byte.
    pub fn fresh_caught() -> [[u8; Table::FLAGS]; Table::CLIENTS]
        ensures { result ≡ replicate clients (replicate 8 255) }
    {
        [[255; Table::FLAGS]; Table::CLIENTS]
    }

    // No number was joined.
    pub fn fresh_queue() -> [u8; Table::REVISIONS]
        ensures { result ≡ replicate revisions 1 }
    {
        [Table::UNQUEUED; Table::REVISIONS]
    }

    // No transaction is open.
    pub fn fresh_opened() -> [u8; Table::CLIENTS]
        ensures { result ≡ replicate clients closed }
    {
        [Table::CLOSED as u8; Table::CLIENTS]
    }

    // What tells that the bytes are a table with this layout.
    #[tactic(auto, unfolding(cells::specs::Range::signature))]
    pub fn signature() -> [u8; 8]
        ensures { result ≡ signature }
    {
        [83, 73, 76, 84, 84, 79, 78, 71]
    }
}
