//! Where the daemon's epoch comes from.

ghost use Rattle.std.specs.Prelude.{◌≡◌, IfErr, IfOk, codes};
ghost use Rattle.clap.specs.Words.{found_of, rows_of};
ghost use Rattle.wl_cli.specs.Daemon.{HasTwoEpochs, MayHaveEpoch};
ghost use Rattle.wl_cli.specs.inner.Daemon.{IsEpochFault};
ghost use Rattle.wl_cli.specs.Numbers.{HasNumberTo};

use crate::arguments::OptionFault;
use clap::ArgMatches;

/// The greatest epoch.
pub const MOST_EPOCH: i64 = i64::MAX;

/// What gives the daemon its epoch.
#[derive(Clone, Copy, Debug, PartialEq, Eq)]
pub enum EpochSource<'a> {
    /// `--epoch`: it is this, 1 to 9,223,372,036,854,775,807.
    Number(u64),
    /// `--epoch-file`: it is one greater than what this file keeps.
    File(&'a str),
}

/// The number of `--epoch`, which is given. `clap` has tested the range; it is tested again, since no contract of its
/// says so.
fn epoch_number(options: &ArgMatches<'_>) -> Result<u64, OptionFault>
    ensures ok { IfOk result (HasNumberTo 9223372036854775807 (codes "epoch") (rows_of (found_of options.now))) }
    ensures err { IfErr result (λ fault. fault ≡ OptionFault.Memory) }
{
    match options.get_one::<u64>("epoch") {
        Some(number) if (1..=MOST_EPOCH as u64).contains(&number) => Ok(number),
        _ => Err(OptionFault::Memory),
    }
}

/// What gives the epoch, if something does.
pub fn epoch_in<'a>(options: &ArgMatches<'a>) -> Result<Option<EpochSource<'a>>, OptionFault>
    ensures ok { IfOk result (MayHaveEpoch (rows_of (found_of options.now))) }
    ensures err { IfErr result IsEpochFault }
    ensures both { IfErr result (λ fault. fault ≡ OptionFault.TwoEpochs
        → HasTwoEpochs (rows_of (found_of options.now))) }
{
    let number = options.get_str("epoch");
    let file = options.get_str("epoch-file");
    match (number, file) {
        (None, None) => Ok(None),
        (None, Some(path)) => Ok(Some(EpochSource::File(path))),
        (Some(_), None) => match epoch_number(options) {
            Ok(number) => Ok(Some(EpochSource::Number(number))),
            Err(fault) => Err(fault),
        },
        (Some(_), Some(_)) => Err(OptionFault::TwoEpochs),
    }
}
