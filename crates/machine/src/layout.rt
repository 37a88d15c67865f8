// Where things stand in the lent memory: the same as the definitions of specs/Layout.
// Places of words and no struct: the memory is one slice, which C lends.

// At most 32 calls nest, and a path has at most eight unknowns.
pub const DEPTH: usize = 32;

pub const UNKNOWNS: usize = 8;

// A cell has two words, a frame sixteen cells; main has a frame, and each call within it.
pub const CELL: usize = 2;

pub const CELLS: usize = 16;

pub const FRAME: usize = CELLS * CELL;

pub const FRAMES: usize = DEPTH + 1;

// The callers, two words each: where one goes on, and where its temporaries begin.
pub const CALLER: usize = 2;

pub const CALLERS: usize = FRAMES * FRAME;

pub const CALLER_BASES: usize = CALLERS + 1;

// The windows, two words each, low and high.
pub const WINDOW: usize = 2;

pub const WINDOWS: usize = CALLERS + CALLER * DEPTH;

pub const WINDOW_HIGHS: usize = WINDOWS + 1;

// The numbers of the present setting.
pub const SETTING: usize = WINDOWS + WINDOW * UNKNOWNS;

// The pairs that the windows started as, two words each, low and high.
pub const STARTS: usize = SETTING + UNKNOWNS;

// The tables that grow, so many words for each index.
pub const TABLES: usize = 1200;

pub const STRIDE: usize = 15;

// What stands at an index: a temporary; a node's kind and its two operands; its range; its number under the present setting; a test's kind and its two sides; an outcome; a mark of the checkpoints, which is a pair of words and a number.
pub const TEMPORARIES: usize = TABLES;

pub const NODES: usize = TABLES + 2;

pub const NODE_LEFTS: usize = TABLES + 3;

pub const NODE_RIGHTS: usize = TABLES + 4;

pub const RANGE_LOWS: usize = TABLES + 5;

pub const RANGE_HIGHS: usize = TABLES + 6;

pub const NUMBERS: usize = TABLES + 7;

pub const TESTS: usize = TABLES + 8;

pub const TEST_LEFTS: usize = TABLES + 9;

pub const TEST_RIGHTS: usize = TABLES + 10;

pub const OUTCOMES: usize = TABLES + 11;

pub const MARKS: usize = TABLES + 12;

pub const MARK_NUMBERS: usize = TABLES + 14;
