// The refusals, and what a chain of checks comes to. specs/Refusals.antt has Linux's numbers.
#![tactic(auto)]

ghost use Rattle.std.specs.Prelude.{◌≡◌};
ghost use Rattle.errno.specs.Refusals.{number};
ghost use Rattle.errno.specs.Meanings.{TableMeanings};

// A refusal: the error of the `Result` that a check or a request answers.
#[derive(Clone, Copy, Debug, PartialEq, Eq)]
pub enum Errno {
    EPERM,
    ENOENT,
    EEXIST,
    EXDEV,
    ENOTDIR,
    EINVAL,
    ENOSPC,
    ERANGE,
    ENAMETOOLONG,
    ENOTEMPTY,
    ENODATA,
    ENOTUNIQ,
    EUCLEAN,
    ENOKEY,
}

// Linux's number for a refusal.
impl From<Errno> for u8 {
    ghost from_gives = { λ e n. n ≡ number e };

    fn from(e: Errno) -> u8 {
        match e {
            Errno::EPERM => 1,
            Errno::ENOENT => 2,
            Errno::EEXIST => 17,
            Errno::EXDEV => 18,
            Errno::ENOTDIR => 20,
            Errno::EINVAL => 22,
            Errno::ENOSPC => 28,
            Errno::ERANGE => 34,
            Errno::ENAMETOOLONG => 36,
            Errno::ENOTEMPTY => 39,
            Errno::ENODATA => 61,
            Errno::ENOTUNIQ => 76,
            Errno::EUCLEAN => 117,
            Errno::ENOKEY => 126,
        }
    }
}

// What a table of checks means: which refusal it comes to, and when it is passed. The function does nothing: its `ensures` is the theorem.
pub fn tables_mean()
    ensures { TableMeanings }
{}
