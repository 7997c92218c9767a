//! The words of the command line.
ghost use Rattle.std.specs.Prelude.{◌≡◌, IfSome, Some};
ghost use Rattle.kfs_serve.specs.Words.{AreJudges, IsAskedFor, IsSizeOf, number_of};

use kfs_desk::WORKERS;
use kfs_image::TierSizes;
use kfs_program_text::Words;

/// What a first start takes.
#[derive(Clone, Copy, Debug)]
pub struct FirstStart<'a> {
    /// The file of the clients.
    pub clients: &'a str,
    /// How many blocks of 4 KiB each tier has.
    pub sizes: TierSizes,
}

/// What the words ask for.
#[derive(Clone, Copy, Debug)]
pub struct Asked<'a> {
    /// The folder of the two files.
    pub folder: &'a str,
    /// How many rows the docket may have.
    pub limit: u32,
    /// What a first start takes; none where the files are there.
    pub first: Option<FirstStart<'a>>,
    /// The file of the clients with which the desk of the files goes on; none where it goes on with its own.
    pub admitted: Option<&'a str>,
    /// In how many threads the submissions of a group are judged, 1 to 8.
    pub judges: usize,
}

/// What the words ask for: `open FOLDER LIMIT`, `open FOLDER LIMIT --clients FILE` or `new FOLDER LIMIT CLIENTS A B C`, and
/// behind each `--judges N` or nothing, which stands for one judge. The first word is the program's name.
pub fn asked_of<'a>(words: &[&'a str]) -> Option<Asked<'a>>
    ensures { IfSome result (λ asked. IsAskedFor words.now asked) }
{
    match *words {
        [_, "open", folder, limit] => Some(Asked {
            folder,
            limit: number_in(limit)?,
            first: None,
            admitted: None,
            judges: 1,
        }),
        [_, "open", folder, limit, "--judges", judges] => Some(Asked {
            folder,
            limit: number_in(limit)?,
            first: None,
            admitted: None,
            judges: judges_in(judges)?,
        }),
        [_, "open", folder, limit, "--clients", clients] => Some(Asked {
            folder,
            limit: number_in(limit)?,
            first: None,
            admitted: Some(clients),
            judges: 1,
        }),
        [
            _,
            "open",
            folder,
            limit,
            "--clients",
            clients,
            "--judges",
            judges,
        ] => Some(Asked {
            folder,
            limit: number_in(limit)?,
            first: None,
            admitted: Some(clients),
            judges: judges_in(judges)?,
        }),
        [_, "new", folder, limit, clients, first, second, third] => {
            let limit = number_in(limit)?;
            let sizes = sizes_in(first, second, third)?;
            Some(Asked {
                folder,
                limit,
                first: Some(FirstStart { clients, sizes }),
                admitted: None,
                judges: 1,
            })
        }
        [
            _,
            "new",
            folder,
            limit,
            clients,
            first,
            second,
            third,
            "--judges",
            judges,
        ] => {
            let limit = number_in(limit)?;
            let sizes = sizes_in(first, second, third)?;
            Some(Asked {
                folder,
                limit,
                first: Some(FirstStart { clients, sizes }),
                admitted: None,
                judges: judges_in(judges)?,
            })
        }
        _ => None,
    }
}

/// The word as a number of judges, 1 to 8.
fn judges_in(word: &str) -> Option<usize>
    ensures { IfSome result (AreJudges word.now) }
{
    let judges = number_in(word)? as usize;
    if judges == 0 || judges > WORKERS {
        return None;
    }
    Some(judges)
}

/// Tier sizes, in blocks, in three words.
fn sizes_in(first: &str, second: &str, third: &str) -> Option<TierSizes>
    ensures { IfSome result (λ sizes. IsSizeOf first.now second.now third.now sizes) }
{
    TierSizes::new(number_in(first)?, number_in(second)?, number_in(third)?)
}

/// The word as a decimal number of 32 bits.
fn number_in(word: &str) -> Option<u32>
    ensures { IfSome result (λ number. number_of word.now ≡ Some number) }
{
    Words::new(word.as_bytes()).only_number32().ok()
}
