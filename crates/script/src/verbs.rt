// The request's word, and the words that each request takes.
ghost use Rattle.std.specs.Prelude.{◌≡◌};
ghost use Rattle.script.specs.Commands.{verb_of, shape_of};

use crate::{Sort, Verb};

// The requests' words, letter for letter.
static WORDS: [(&[u8], Verb); 13] = [
    (b"add-key", Verb::AddKey),
    (b"remove-key", Verb::RemoveKey),
    (b"set-policy", Verb::SetPolicy),
    (b"get-policy", Verb::GetPolicy),
    (b"create", Verb::Create),
    (b"link", Verb::Link),
    (b"rename", Verb::Rename),
    (b"exchange", Verb::Exchange),
    (b"remove", Verb::Remove),
    (b"find", Verb::Find),
    (b"show", Verb::Show),
    (b"seal", Verb::Seal),
    (b"open", Verb::Open),
];

pub fn verb(w: &[u8]) -> Option<Verb>
    ensures { result ≡ verb_of w.now }
{
    WORDS
        .iter()
        .find(|(word, _)| w == *word)
        .map(|(_, verb)| *verb)
}

// What the words are that a request takes.
pub fn shape_of(v: Verb) -> &'static [Sort]
    ensures { result.now ≡ shape_of v }
{
    match v {
        Verb::AddKey => &[Sort::Descriptor, Sort::Text],
        Verb::RemoveKey => &[Sort::Descriptor],
        Verb::SetPolicy => &[Sort::First, Sort::Text, Sort::Nonce],
        Verb::GetPolicy | Verb::Remove => &[Sort::First],
        Verb::Create => &[Sort::First, Sort::Second, Sort::Text, Sort::Nonce],
        Verb::Link | Verb::Rename | Verb::Seal | Verb::Open => &[
            Sort::First,
            Sort::Second,
            Sort::Text,
        ],
        Verb::Exchange => &[Sort::First, Sort::Second],
        Verb::Find => &[Sort::First, Sort::Text],
        Verb::Show => &[Sort::First, Sort::Size],
    }
}
