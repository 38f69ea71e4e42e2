//! What `clap` read for an option.

ghost use Rattle.std.specs.Prelude.{◌≡◌, [], map, unwrap_or, IfErr, IfOk};
ghost use Rattle.clap.specs.Words.{all_of, found_of, rows_of};
ghost use Rattle.wl_cli.specs.Numbers.{HasNumberTo, MayHaveNumberTo};

use clap::ArgMatches;
use std::alloc::Global;

/// Why the options ask for nothing that can be done, beyond what `clap` finds.
#[derive(Clone, Copy, Debug, PartialEq, Eq, Drop)]
pub enum OptionFault {
    /// A `--listen` has neither an address and a port nor a socket's path.
    Listen,
    /// `--log` has no level.
    Log,
    /// `--status` has no address and port.
    Status,
    /// `--epoch` and `--epoch-file` are given at once.
    TwoEpochs,
    /// A growth was refused, or `clap` gave what it should not.
    Memory,
}

/// The number of an option that has a default. `clap` has tested the range; it is tested again, since no contract of
/// its says so.
pub fn number_in(options: &ArgMatches<'_>, name: &str, most: u32) -> Result<u32, OptionFault>
    ensures ok { IfOk result (HasNumberTo most name.now (rows_of (found_of options.now))) }
    ensures err { IfErr result (λ fault. fault ≡ OptionFault.Memory) }
{
    match options.get_one::<u32>(name) {
        Some(number) if (1..=most).contains(&number) => Ok(number),
        _ => Err(OptionFault::Memory),
    }
}

/// The number of an option that needn't be there.
pub fn number_if_any(
    options: &ArgMatches<'_>,
    name: &str,
    most: u32,
) -> Result<Option<u32>, OptionFault>
    ensures ok { IfOk result (MayHaveNumberTo most name.now (rows_of (found_of options.now))) }
    ensures err { IfErr result (λ fault. fault ≡ OptionFault.Memory) }
{
    if options.get_str(name).is_none() {
        return Ok(None);
    }
    match number_in(options, name, most) {
        Ok(number) => Ok(Some(number)),
        Err(fault) => Err(fault),
    }
}

/// The texts of an option that may be given again.
pub fn texts_in<'a>(
    alloc: Global,
    options: &ArgMatches<'a>,
    name: &str,
) -> Result<Vec<&'a str>, OptionFault>
    ensures ok { IfOk result (λ found. map (λ text. text.now) found.items
        ≡ unwrap_or (all_of name.now (rows_of (found_of options.now))) []) }
    ensures err { IfErr result (λ fault. fault ≡ OptionFault.Memory) }
{
    let mut texts = Vec::new(alloc);
    if let Some(given) = options.get_strs(name) {
        if texts.extend_from_slice(given).is_err() {
            return Err(OptionFault::Memory);
        }
    }
    Ok(texts)
}
