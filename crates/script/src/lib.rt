// The request script's texts: words, numbers, byte strings and request lines, each read as specs/ says, and the texts of answers. No function is about a volume.
#![tactic(auto)]

pub mod arguments;
pub mod cutting;
pub mod numbers;
pub mod output;
pub mod strings;
pub mod verbs;
pub mod words;

// A request's word.
#[derive(Clone, Copy, Debug, PartialEq, Eq)]
pub enum Verb {
    AddKey,
    RemoveKey,
    SetPolicy,
    GetPolicy,
    Create,
    Link,
    Rename,
    Exchange,
    Remove,
    Find,
    Show,
    Seal,
    Open,
}

// What a word after it should be. First and Second are the request's numbers, Text a KEY, POLICY, NAME or BLOCK.
#[derive(Clone, Copy, Debug, PartialEq, Eq)]
pub enum Sort {
    First,
    Second,
    Text,
    Descriptor,
    Nonce,
    Size,
}

// What the words after the request's come to. `len` counts the bytes of a Text: they stand at the start of the caller's buffer, in no Vec beside it (no heap).
#[derive(Clone, Copy, Debug, PartialEq, Eq)]
pub struct Args {
    pub first: u64,
    pub second: u64,
    pub descriptor: [u8; 8],
    pub nonce: [u8; 16],
    pub len: usize,
}
