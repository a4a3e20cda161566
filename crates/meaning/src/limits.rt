// The limits, SPECIFICATION 12. specs/Limits.antt has them for the definitions; the contracts of the functions that test them hold the two
// together.

pub const MOST_CLASSES: u32 = 256;

pub const MOST_ROLES: u32 = 64;

pub const MOST_FEATURES: u32 = 64;

// Records after a vocabulary's header, and words.
pub const MOST_AXIOMS: usize = 1024;

pub const MOST_VOCABULARY_WORDS: usize = 4 * (MOST_AXIOMS + 1);

// Records after a policy's header, and words.
pub const MOST_RECORDS: usize = 512;

pub const MOST_POLICY_WORDS: usize = 6 * (MOST_RECORDS + 1);

// The deepest that a conjunct may stand.
pub const MOST_DEPTH: u32 = 16;

pub const MOST_INDIVIDUALS: u32 = 512;

// Records after a model's header, and words.
pub const MOST_FACTS: usize = 140000;

pub const MOST_MODEL_WORDS: usize = 5 * (MOST_FACTS + 1);

pub const MOST_COMBINATIONS: usize = 65536;

// A work slice is full from so many words on.
pub const WORK_SIZE: usize = 16384;

// The program's output, in words, and its longest input, in bytes.
pub const OUTPUT_SIZE: usize = 16384;

pub const MOST_BYTES: usize = 65536;

// An OWL text, in bytes, and the letters and digits of a name.
pub const MOST_TEXT: usize = 65536;

pub const MOST_NAME_BYTES: usize = 32;
