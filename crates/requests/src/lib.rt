// The thirteen requests on a volume: check, then act. No public function asks anything of its caller: any volume value, any numbers, any slices. Each contract
// equates the whole outcome, refusals included, with `step fscrypt` of volume/specs/Step.antt: the answer, every byte of the volume and of the lent buffer.
#![tactic(auto, using(crate::proofs::Passing::passed), unfolding(volume::specs::Step::step, volume::specs::Step::settle, volume::specs::Step::check, volume::specs::Step::lent))]

pub mod claims;

ghost use Rattle.std.specs.Prelude.{◌≡◌, [], Err, OnOk, MatchResult};
ghost use Rattle.fscrypt.specs.Cipher.{fscrypt};
ghost use Rattle.volume.specs.Volume.{fresh as fresh_volume};
ghost use Rattle.volume.specs.Request.{outcome, replied, create_answered, entry_answered, policy_answered, show_answered};
ghost use Rattle.volume.specs.Request;
ghost use Rattle.volume.specs.Step.{step};
ghost use Rattle.requests.specs.Answers.{policy_beside};

use checks::{contents, directory, keyring, policies};
use errno::Errno;
use ids::{EntryNumber, InodeNumber};
use volume::{
    Changed, Created, DIRECTORY, ENTRY_SLOTS, Entry, INODE_SLOTS, Inode, KEY_SLOTS, Key,
    PolicyOutcome, ShownEntry, Volume,
};

// A volume with the root directory and nothing else.
#[tactic(auto, unfolding(volume::specs::Volume::fresh))]
pub fn fresh() -> Volume
    ensures { result ≡ fresh_volume }
{
    let mut v = Volume {
        keys: [Key::default(); KEY_SLOTS],
        inodes: [Inode::default(); INODE_SLOTS],
        entries: [Entry::default(); ENTRY_SLOTS],
    };
    v.inodes[0].kind = DIRECTORY;
    v
}

// A request that changes the volume: its check, and where that is fine its effect. A refusal leaves the volume, which `?` would not hand back. README and docs/CLAIMS.md
// name each request, so those that differ in a call alone stay, a line or two each.
fn settle<T, F: FnOnce(Volume) -> Changed<T>>(
    check: Result<(), Errno>,
    v: Volume,
    act: F,
) -> Changed<T>
    requires { OnOk check (F.pre act v) }
    ensures { MatchResult check (λ _. F.post act v result) (λ e. result ≡ record { answer = Err e; volume = v }) }
{
    match check {
        Ok(()) => act(v),
        Err(e) => Changed {
            answer: Err(e),
            volume: v,
        },
    }
}

// Adds a master key to the keyring.
pub fn add_key(v: Volume, descriptor: [u8; 8], key: &[u8]) -> Changed<()>
    ensures { outcome (replied result.answer) key.now result.volume ≡ step fscrypt v (Request.add_key descriptor key.now) }
{
    let check = keyring::add_key_check(&v, descriptor, key.len());
    settle(check, v, |v| effects::keyring::add_key(v, descriptor, key))
}

pub fn remove_key(v: Volume, descriptor: [u8; 8]) -> Changed<()>
    ensures { outcome (replied result.answer) [] result.volume ≡ step fscrypt v (Request.remove_key descriptor) }
{
    let check = keyring::remove_key_check(&v, descriptor);
    settle(check, v, |v| effects::keyring::remove_key(v, descriptor))
}

// Encrypts an empty directory, or confirms the policy that an inode has.
pub fn set_policy(v: Volume, inode: InodeNumber, policy: &[u8], nonce: [u8; 16]) -> Changed<()>
    ensures { outcome (replied result.answer) [] result.volume ≡ step fscrypt v (Request.set_policy inode policy.now nonce) }
{
    let check = policies::set_policy_check(&v, inode, policy, nonce);
    settle(
        check,
        v,
        |v| effects::policies::set_policy(v, inode, policy, nonce),
    )
}

// The policy of an inode; where it is refused, the bytes beside the refusal are zeros.
#[tactic(auto, unfolding(volume::specs::Step::step, volume::specs::Step::settle, volume::specs::Step::check, volume::specs::Step::lent, volume::specs::Step::effect, lists::specs::Bytes::zeros))]
pub fn get_policy(v: Volume, inode: InodeNumber) -> PolicyOutcome
    ensures { (outcome (policy_answered result.answer result.policy) [] v ≡ step fscrypt v (Request.get_policy inode)) × (result.policy ≡ policy_beside (step fscrypt v (Request.get_policy inode)).answer) }
{
    match policies::get_policy_check(&v, inode) {
        Ok(()) => PolicyOutcome {
            answer: Ok(()),
            policy: effects::policies::get_policy(&v, inode),
        },
        Err(e) => PolicyOutcome {
            answer: Err(e),
            policy: [0; 12],
        },
    }
}

// Makes an inode of this kind, with an entry in the directory.
pub fn create(
    v: Volume,
    parent: InodeNumber,
    kind: u64,
    name: &[u8],
    nonce: [u8; 16],
) -> Changed<Created>
    ensures { outcome (create_answered result.answer) [] result.volume ≡ step fscrypt v (Request.create parent kind name.now nonce) }
{
    let check = directory::create_check(&v, parent, kind, name, nonce);
    settle(
        check,
        v,
        |v| effects::directory::create(v, parent, kind, name, nonce),
    )
}

// Gives an inode that is no directory a further entry.
pub fn link(v: Volume, inode: InodeNumber, parent: InodeNumber, name: &[u8]) -> Changed<EntryNumber>
    ensures { outcome (entry_answered result.answer) [] result.volume ≡ step fscrypt v (Request.link inode parent name.now) }
{
    let check = directory::link_check(&v, inode, parent, name);
    settle(
        check,
        v,
        |v| effects::directory::link(v, inode, parent, name),
    )
}

// Moves an entry to a directory, under a name. It replaces nothing, and keeps its number.
pub fn rename(v: Volume, entry: EntryNumber, parent: InodeNumber, name: &[u8]) -> Changed<()>
    ensures { outcome (replied result.answer) [] result.volume ≡ step fscrypt v (Request.rename entry parent name.now) }
{
    let check = directory::rename_check(&v, entry, parent, name);
    settle(
        check,
        v,
        |v| effects::directory::rename(v, entry, parent, name),
    )
}

// Swaps the inodes of two entries.
pub fn exchange(v: Volume, one: EntryNumber, other: EntryNumber) -> Changed<()>
    ensures { outcome (replied result.answer) [] result.volume ≡ step fscrypt v (Request.exchange one other) }
{
    let check = directory::exchange_check(&v, one, other);
    settle(check, v, |v| effects::directory::exchange(v, one, other))
}

// Removes an entry, and its inode where it was the last one.
pub fn remove(v: Volume, entry: EntryNumber) -> Changed<()>
    ensures { outcome (replied result.answer) [] result.volume ≡ step fscrypt v (Request.remove entry) }
{
    let check = directory::remove_check(&v, entry);
    settle(check, v, |v| effects::directory::remove(v, entry))
}

pub fn find(v: Volume, parent: InodeNumber, name: &[u8]) -> Result<EntryNumber, Errno>
    ensures { outcome (entry_answered result) [] v ≡ step fscrypt v (Request.find parent name.now) }
{
    directory::find_check(&v, parent, name)?;
    Ok(effects::directory::find(v, parent, name))
}

// Shows an entry: the answer, and the name at the buffer's start.
pub fn show(v: Volume, entry: EntryNumber, buffer: &mut [u8]) -> Result<ShownEntry, Errno>
    ensures { outcome (show_answered result) buffer.new v ≡ step fscrypt v (Request.show entry buffer.old) }
{
    directory::show_check(&v, entry, buffer.len())?;
    Ok(effects::directory::show(&v, entry, buffer))
}

// Seals a block of a regular file's contents in the lent buffer. To open is the same but for the effect: a function of both would take it as a parameter, and be no shorter.
pub fn seal(v: Volume, inode: InodeNumber, number: u64, block: &mut [u8]) -> Result<(), Errno>
    ensures { outcome (replied result) block.new v ≡ step fscrypt v (Request.seal inode number block.old) }
{
    contents::block_check(&v, inode, block.len())?;
    effects::contents::seal(&v, inode, number, block);
    Ok(())
}

// Opens a block in the lent buffer.
pub fn open(v: Volume, inode: InodeNumber, number: u64, block: &mut [u8]) -> Result<(), Errno>
    ensures { outcome (replied result) block.new v ≡ step fscrypt v (Request.unseal inode number block.old) }
{
    contents::block_check(&v, inode, block.len())?;
    effects::contents::open(&v, inode, number, block);
    Ok(())
}
