// The kinds of tests one by one: the comparison, and which of its two sides are open.
// Numbers and no enum: the memory is C's, and a test's kind is one of its words.
use machine::kinds;

// Whether a side is open.
pub const KNOWN: u32 = 0;

pub const OPEN: u32 = 1;

// The comparisons.
pub const LT: u32 = 0;

pub const LE: u32 = 1;

pub const GT: u32 = 2;

pub const GE: u32 = 3;

pub const EQ: u32 = 4;

pub const NE: u32 = 5;

pub const LT_OPEN_KNOWN: u32 = kinds::TEST_LEFT + LT;

pub const LE_OPEN_KNOWN: u32 = kinds::TEST_LEFT + LE;

pub const GT_OPEN_KNOWN: u32 = kinds::TEST_LEFT + GT;

pub const GE_OPEN_KNOWN: u32 = kinds::TEST_LEFT + GE;

pub const EQ_OPEN_KNOWN: u32 = kinds::TEST_LEFT + EQ;

pub const NE_OPEN_KNOWN: u32 = kinds::TEST_LEFT + NE;

pub const LT_KNOWN_OPEN: u32 = kinds::TEST_RIGHT + LT;

pub const LE_KNOWN_OPEN: u32 = kinds::TEST_RIGHT + LE;

pub const GT_KNOWN_OPEN: u32 = kinds::TEST_RIGHT + GT;

pub const GE_KNOWN_OPEN: u32 = kinds::TEST_RIGHT + GE;

pub const EQ_KNOWN_OPEN: u32 = kinds::TEST_RIGHT + EQ;

pub const NE_KNOWN_OPEN: u32 = kinds::TEST_RIGHT + NE;

pub const LT_OPEN_OPEN: u32 = kinds::TEST_LEFT + kinds::TEST_RIGHT + LT;

pub const LE_OPEN_OPEN: u32 = kinds::TEST_LEFT + kinds::TEST_RIGHT + LE;

pub const GT_OPEN_OPEN: u32 = kinds::TEST_LEFT + kinds::TEST_RIGHT + GT;

pub const GE_OPEN_OPEN: u32 = kinds::TEST_LEFT + kinds::TEST_RIGHT + GE;

pub const EQ_OPEN_OPEN: u32 = kinds::TEST_LEFT + kinds::TEST_RIGHT + EQ;

pub const NE_OPEN_OPEN: u32 = kinds::TEST_LEFT + kinds::TEST_RIGHT + NE;
