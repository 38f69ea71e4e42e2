//! Texts and names, each seen by contracts as a list of bytes.

ghost use Rattle.std.specs.Prelude.{◌≡◌, IfOk, IfErr, OnOk, None};
ghost use Rattle.std.specs.Str.{bytes_eq};
ghost use Rattle.std.proofs.Common.{rules};
ghost use Rattle.std.specs.Cmp.Rules.{comparing};
ghost use Rattle.std.proofs.lemmas.Cmp.{nat_list_eq_equiv};
ghost use Rattle.wl_types.specs.Names.{name_refusal, is_reserved};
ghost use Rattle.wl_types.specs.Refusals.{refused_or_memory};

use crate::memory::Memory;
use crate::refusal::Refusal;
use std::alloc::Global;
use std::marker::Model;

/// A text that owns its bytes.
#[derive(Debug, Drop)]
pub struct Text {
    inner: String,
}

impl Model for Text {
    ghost use Rattle.std.specs.Prelude.{List, ℕ};
    ghost use Rattle.std.specs.String.{string_bytes};

    ghost Value = { List ℕ };

    ghost view = { λ text. string_bytes text.inner };
}

impl Text {
    pub fn of(alloc: Global, text: &str) -> Result<Text, Memory>
        ensures { IfOk result (λ made. made ≡ text.now) }
    {
        Ok(Text {
            inner: String::from_str(alloc, text)?,
        })
    }

    pub fn as_str(&self) -> &str
        ensures { result.now ≡ self.now }
    {
        self.inner.as_str()
    }

    /// Whether the text starts with `-`, so that no resource may have it as its name.
    pub fn is_reserved(&self) -> bool
        ensures { result ≡ is_reserved self.now }
    {
        is_reserved_text(self.inner.as_str())
    }
}

impl PartialEq for Text {
    ghost eq = { bytes_eq };

    ghost laws = { Prim.search (comparing, rules) };

    fn eq(&self, other: &Text) -> bool {
        self.inner.as_str() == other.inner.as_str()
    }
}

impl Eq for Text {
    ghost laws = { nat_list_eq_equiv };
}

/// The name of a resource: it doesn't start with `-` and has at most 1,024 bytes. The empty text is a name.
#[derive(Debug, Drop)]
pub struct Name {
    inner: String,
}

impl Model for Name {
    ghost use Rattle.std.specs.Prelude.{List, ℕ, ◌≡◌, None};
    ghost use Rattle.std.specs.String.{string_bytes};
    ghost use Rattle.wl_types.specs.Names.{name_refusal};

    ghost Value = { List ℕ };

    ghost view = { λ name. string_bytes name.inner };

    ghost invariant = { λ name. name_refusal (string_bytes name.inner) ≡ None };
}

impl Name {
    /// The name of this text; else `ReservedName`, `NameTooLong` or `Memory`, the first that applies.
    pub fn of(alloc: Global, text: &str) -> Result<Name, Refusal>
        ensures made { IfOk result (λ made. made ≡ text.now) }
        ensures allowed { OnOk result (name_refusal text.now ≡ None) }
        ensures refused { IfErr result (λ refusal. refusal ≡ refused_or_memory (name_refusal text.now)) }
    {
        if let Some(refusal) = name_refused(text) {
            return Err(refusal);
        }
        match String::from_str(alloc, text) {
            Ok(inner) => Ok(Name { inner }),
            Err(_) => Err(Refusal::Memory),
        }
    }

    pub fn as_str(&self) -> &str
        ensures { result.now ≡ self.now }
    {
        self.inner.as_str()
    }

    /// Whether the two are one name: byte by byte, as every comparison of names.
    pub fn same(&self, other: &Name) -> bool
        ensures { result ≡ bytes_eq self.now other.now }
    {
        self.inner.as_str() == other.inner.as_str()
    }

    pub fn copy(&self, alloc: Global) -> Result<Name, Memory>
        ensures { IfOk result (λ made. made ≡ self.now) }
    {
        Ok(Name {
            inner: String::from_str(alloc, self.inner.as_str())?,
        })
    }
}

impl PartialEq for Name {
    ghost eq = { bytes_eq };

    ghost laws = { Prim.search (comparing, rules) };

    fn eq(&self, other: &Name) -> bool {
        self.same(other)
    }
}

impl Eq for Name {
    ghost laws = { nat_list_eq_equiv };
}

fn is_reserved_text(text: &str) -> bool
    ensures { result ≡ is_reserved text.now }
{
    text.as_bytes().first() == Some(&b'-')
}

/// Why a text is no name, memory aside.
fn name_refused(text: &str) -> Option<Refusal>
    ensures { result ≡ name_refusal text.now }
{
    if is_reserved_text(text) {
        Some(Refusal::ReservedName)
    } else if text.len() > 1024 {
        Some(Refusal::NameTooLong)
    } else {
        None
    }
}
