//! Fences: tokens that grow, by which a resource behind a lock knows a later holder from an earlier one.

ghost use Rattle.std.specs.Prelude.{◌≡◌, ◌<◌, ◌++◌, false, IfOk, OnOk, string_bytes};
ghost use Rattle.std.specs.Fmt.{digit_glyph};
ghost use Rattle.wl_server.specs.Fences.{hexadecimal, fence_word, fence_object, fences_member, fenced};
ghost use Rattle.wl_server.specs.Fences.{WordsCompareAsTokens};

use std::alloc::{AllocError, Global};
use std::sync::Arc;
use std::sync::atomic::{AtomicU64, Ordering};
use wl_types::Memory;

/// The tokens of a daemon: all its peers step the same ones.
///
/// A token is stepped once its lock was seen granted, and before it is taken. Of two locks that exclude each other the
/// later is granted when the earlier has ended, and so, if that was taken, after its token was stepped.
#[derive(Drop)]
pub struct FenceCounter {
    last: Arc<AtomicU64, Global>,
}

impl FenceCounter {
    /// A counter whose first token is 1.
    pub fn new(alloc: Global) -> Result<FenceCounter, Memory> {
        let last = Arc::new(alloc, AtomicU64::new(0))?;
        Ok(FenceCounter { last })
    }

    /// The same counter, for another peer. `Memory` comes only where the count of its owners is used up.
    pub fn share(&self) -> Result<FenceCounter, Memory> {
        let last = Arc::try_clone(&self.last)?;
        Ok(FenceCounter { last })
    }

    /// A token that is greater than all before it. At a thousand million a second they last for 584 years.
    pub fn step(&self) -> u64 {
        self.last.fetch_add(1, Ordering::SeqCst).wrapping_add(1)
    }
}

/// A request that was granted, and the token of its lock.
#[derive(Clone, Copy, Debug, PartialEq, Eq, Drop)]
pub struct Fence {
    pub request: u64,
    pub token: u64,
}

/// The words of fences compare as their epochs and tokens do: a law, as the contract of a function without a body.
pub fn words_compare_as_tokens()
    ensures { WordsCompareAsTokens }
{}

fn digit(value: u8) -> char
    requires { value < 16 }
    ensures { result ≡ digit_glyph false value }
{
    if value < 10 {
        (b'0' + value) as char
    } else {
        (b'a' + (value - 10)) as char
    }
}

/// Appends the last digits of a number, so many of them.
fn put_hexadecimal(out: &mut String, number: u64, count: u32) -> Result<(), AllocError>
    ensures { OnOk result (string_bytes out.new ≡ string_bytes out.old ++ hexadecimal count number) }
{
    if count == 0 {
        return Ok(());
    }
    put_hexadecimal(out, number / 16, count - 1)?;
    out.push(digit((number % 16) as u8))
}

#[tactic(auto, unfolding(crate::specs::Fences::fence_word))]
fn put_word(out: &mut String, epoch: u64, token: u64) -> Result<(), AllocError>
    ensures { OnOk result (string_bytes out.new ≡ string_bytes out.old ++ fence_word epoch token) }
{
    put_hexadecimal(out, epoch, 16)?;
    out.push_str("-")?;
    put_hexadecimal(out, token, 16)
}

#[tactic(auto, unfolding(crate::specs::Fences::fence_object))]
fn put_fence(out: &mut String, epoch: u64, fence: &Fence) -> Result<(), AllocError>
    ensures { OnOk result (string_bytes out.new ≡ string_bytes out.old ++ fence_object epoch fence.now) }
{
    out.push_str("{\"fence\":\"")?;
    put_word(out, epoch, fence.token)?;
    write!(out, "\",\"request\":{}}}", fence.request)
}

/// Appends the member of a first fence and those behind it.
fn put_fences(out: &mut String, epoch: u64, first: &Fence, rest: &[Fence]) -> Result<(), AllocError>
    ensures { OnOk result (string_bytes out.new ≡ string_bytes out.old ++ fences_member epoch first.now rest.now) }
{
    out.push_str("\"fences\":[")?;
    put_fence(out, epoch, first)?;
    for fence in rest {
        out.push_str(",")?;
        put_fence(out, epoch, fence)?;
    }
    out.push_str("]")
}

/// The text of a reply with the fences of the grants that it tells. They stand before its other members, which is the
/// order of the keys' bytes but where the reply has an error.
pub fn fenced_text(
    alloc: Global,
    epoch: u64,
    fences: &[Fence],
    text: String,
) -> Result<String, Memory>
    ensures { IfOk result (λ last_reported. string_bytes last_reported ≡ fenced epoch fences.now (string_bytes text)) }
{
    let Some((first, rest)) = fences.split_first() else {
        return Ok(text);
    };
    let Some(members) = text.as_str().strip_prefix("{") else {
        return Ok(text);
    };
    let mut last_reported = String::new(alloc);
    last_reported.push_str("{")?;
    put_fences(&mut last_reported, epoch, first, rest)?;
    last_reported.push_str(",")?;
    last_reported.push_str(members)?;
    Ok(last_reported)
}
