// Four tables and one log (02, U12): a call on four tables, and the room that three leave to the fourth.
#![tactic(auto)]
