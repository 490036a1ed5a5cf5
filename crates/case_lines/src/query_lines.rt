// The line of a case for Query, read: its head's options, and its rows. `case_lines` reads what every case's line has.
pub mod head;
pub mod rows;
