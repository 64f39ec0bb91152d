// What holds of every list of requests, as contracts: each function does nothing, and its `ensures` is the theorem. No premise on the ciphers is left.
ghost use Rattle.lists.specs.Bytes.{ByteList};
ghost use Rattle.fscrypt.specs.Cipher.{fscrypt};
ghost use Rattle.volume.specs.Leaves.{Leaves};
ghost use Rattle.volume.specs.Does.{Does};
ghost use Rattle.volume.specs.DoneWhen.{DoneWhen};
ghost use Rattle.volume.specs.UnderKeys.{UnderKeys};
ghost use Rattle.volume.specs.PolicyClause.{PolicyClause};
ghost use Rattle.volume.specs.NotPermitted.{PermissionClause};
ghost use Rattle.volume.specs.SealedOpens.{SealedOpens};
ghost use Rattle.volume.specs.Request.{AllTyped, each_request};
ghost use Rattle.volume.specs.TwoRuns.{TwoRuns};
ghost use Rattle.volume.specs.KeyedNames.{EveryRunKeyed};
ghost use Rattle.requests.specs.Claims.{AlwaysSound, ClimbEnds, PromiseKept, TestsMean};

use ids::{EntryNumber, InodeNumber};

// Demand 1: a refusal is one of document 01's table, and changes no byte of the volume nor of a lent buffer; show writes the name's bytes and no others; requests
// that only ask leave the volume.
pub fn refusals_alter_nothing()
    ensures { Leaves fscrypt }
{}

// A fresh volume is sound and its bytes are bytes, and so is the volume after every request of every list.
pub fn every_volume_is_sound()
    ensures { AlwaysSound fscrypt }
{}

// The climb meets the moved directory or the root, after every request of every list: `Met::Neither`, for steps that ran out, is never met from a directory.
pub fn the_climb_ends()
    ensures { ClimbEnds fscrypt }
{}

// The tests that these records name are equal, in both directions, to plain predicates; those on a volume, fresh and after every request of every list.
pub fn tests_mean_what_they_say()
    ensures { TestsMean fscrypt }
{}

// Link, rename and exchange answer 18, the policy refusal, exactly when their earlier checks have passed and an encrypted directory would gain what lacks its policy, and no
// other request does, so that the number is evidence by itself; and at no time does what lacks its policy stand there.
pub fn policies_hold()
    ensures { PolicyClause fscrypt }
{}

// EPERM is answered exactly to a link of a directory and to a first policy on the root, where the earlier checks have passed.
pub fn eperm_is_for_linked_directories_and_the_root()
    ensures { PermissionClause fscrypt }
{}

// What was sealed opens, and a name that was given is the name that is shown: on every volume that is sound and whose bytes are bytes, as those are that
// requests made.
pub fn what_was_encrypted_decrypts()
    ensures { SealedOpens fscrypt }
{}

// In every list, with keys added and removed at will, show says EUCLEAN only of a wrong key, and with the key under which it was stored a name is read as it was
// given.
pub fn names_read_with_their_key()
    ensures { EveryRunKeyed fscrypt }
{}

// Names shown without the key have at most 255 bytes, no NUL and no `/`, and are distinct in a directory.
pub fn shown_names_keep_their_promise()
    ensures { PromiseKept fscrypt }
{}

fn nothing() {}

// The elements of a slice of bytes are bytes.
fn are_bytes(s: &[u8])
    ensures { ByteList s.now }
{
    nothing();
}

// What the claims ask of a list, its types say: whatever its parts are, each of the requests may stand in it.
pub fn every_request_is_typed(
    i: InodeNumber,
    p: InodeNumber,
    a: EntryNumber,
    b: EntryNumber,
    kind: u64,
    number: u64,
    d: [u8; 8],
    x: [u8; 16],
    s: &[u8],
)
    ensures { AllTyped (each_request i p a b kind number d x s.now) }
{
    are_bytes(&d);
    are_bytes(&x);
    are_bytes(s);
}

// Demand 3: two lists that differ only in key bytes.
pub fn two_runs_agree()
    ensures { TwoRuns fscrypt }
{}

// On every sound volume, and so on every one that requests made, each request is done exactly on its occasion, in plain predicates, and answers what it is to answer.
pub fn each_request_is_done_exactly_when()
    ensures { DoneWhen fscrypt }
{}

// On every such volume a request that is done leaves what it is to leave in the slots that it writes, in plain predicates, and all else as it was.
pub fn each_request_does_what_it_is_to()
    ensures { Does fscrypt }
{}

// On every such volume names and blocks are stored, sealed, opened and shown under the key of their directory or inode, and under no other.
pub fn names_and_blocks_are_under_their_keys()
    ensures { UnderKeys fscrypt }
{}
