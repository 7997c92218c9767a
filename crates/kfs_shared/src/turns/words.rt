//! The words of a table on which passes take turns.

/// The place of the word that has the docket's length.
pub const LENGTH: usize = 0;

/// The place of the word that has the next ticket.
pub const NEXT: usize = 1;

/// The place of the word that has the turn: the ticket that is served.
pub const TURN: usize = 2;

/// The place of the word on which calls sleep that have no ticket.
pub const DOOR: usize = 3;

/// The place of the first of the eight words on which calls sleep that have a ticket.
pub const BELLS: usize = 4;
