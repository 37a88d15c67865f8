// The kinds of nodes and tests in the memory: the same as the definitions of specs/Kinds.
// Numbers and no enum: the memory is C's, and each is in one of its words.

// A node that is a free variable.
pub const FREE: u32 = 0;

// A node that is an operation: 1 and the operation's number, and to this is added where its first cell is open, and where its second is.
pub const OPERATION: u32 = 1;

pub const NODE_LEFT: u32 = 4;

pub const NODE_RIGHT: u32 = 8;

// The first operation on an open cell and a number, on a number and an open cell, and on two open cells.
pub const OPEN_KNOWN: u32 = OPERATION + NODE_LEFT;

pub const KNOWN_OPEN: u32 = OPERATION + NODE_RIGHT;

pub const OPEN_OPEN: u32 = OPERATION + NODE_LEFT + NODE_RIGHT;

// A test: the comparison's number, and to this is added where its first cell is open, and where its second is.
pub const TEST_LEFT: u32 = 8;

pub const TEST_RIGHT: u32 = 16;
