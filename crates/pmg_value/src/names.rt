ghost use Rattle.std.specs.Prelude.{◌≡◌, ◌&&◌, not, codes, IsTrue, IfOk, if◌then◌else◌};
ghost use Rattle.pmg_value.specs.Names.{is_nspace, is_key, is_reserved};
ghost use Rattle.pmg_value.specs.Answers.{Gives};
ghost use Rattle.pmg_value.specs.Process.{host_name};
ghost use Rattle.pmg_value.specs.declared.refusal.Refusal.TheVariants as refusals;

use crate::refusal::Refusal;
use crate::within::all_within;
use crate::word::Word;
use std::alloc::{AllocError, Global};
use std::marker::Model;

/// The greatest length of a namespace's name, in bytes (PMIX_MAX_NSLEN).
pub const MAX_NSPACE_LEN: usize = 255;

/// The greatest length of a key, in bytes (PMIX_MAX_KEYLEN).
pub const MAX_KEY_LEN: usize = 511;

/// A namespace's name: 1 to 255 bytes of 0x21 to 0x7E (PMIx Standard 5.0, pmix_nspace_t), in the order of the bytes. A name of at most 22
/// bytes takes no memory, and copies of a longer name share its bytes.
#[derive(Drop, PartialEq, Eq, PartialOrd, Ord)]
pub struct Nspace {
    name: Word,
}

impl Model for Nspace {
    ghost use Rattle.std.specs.Prelude.{ℕ, List, IsTrue};

    ghost Value = { List ℕ };

    ghost use Rattle.pmg_value.specs.Names.{is_nspace};

    ghost view = { λ a. a.name };

    ghost invariant = { λ a. IsTrue (is_nspace a.name) };

    ghost inverse = { λ v. record { name = v } };
}

/// A key: 1 to 511 bytes of 0x20 to 0x7E (PMIx Standard 5.0, pmix_key_t), in the order of the bytes. A key of at most 22 bytes takes no
/// memory, and copies of a longer key share its bytes.
#[derive(Drop, PartialEq, Eq, PartialOrd, Ord)]
pub struct Key {
    text: Word,
}

impl Model for Key {
    ghost use Rattle.std.specs.Prelude.{ℕ, List, IsTrue};

    ghost Value = { List ℕ };

    ghost use Rattle.pmg_value.specs.Names.{is_key};

    ghost view = { λ a. a.text };

    ghost invariant = { λ a. IsTrue (is_key a.text) };

    ghost inverse = { λ v. record { text = v } };
}

/// Returns whether the bytes are a namespace's name: 1 to 255 bytes of 0x21 to 0x7E.
pub fn is_nspace_name(name: &[u8]) -> bool
    ensures { result ≡ is_nspace name.now }
{
    0 < name.len() && name.len() <= MAX_NSPACE_LEN && all_within(0x21, 0x7E, name)
}

/// Returns whether the bytes are a key: 1 to 511 bytes of 0x20 to 0x7E.
pub fn is_key_text(key: &[u8]) -> bool
    ensures { result ≡ is_key key.now }
{
    0 < key.len() && key.len() <= MAX_KEY_LEN && all_within(0x20, 0x7E, key)
}

/// Returns whether a name or a key begins with `pmix`, like the names that the standard reserves.
pub fn is_reserved_name(name: &[u8]) -> bool
    ensures { result ≡ is_reserved name.now }
{
    matches!(name, [b'p', b'm', b'i', b'x', ..])
}

impl Nspace {
    /// Returns the namespace of the process that stands for the group's host, without memory.
    pub fn of_host() -> Nspace
        ensures { result ≡ host_name }
    {
        Nspace {
            name: Word::short(b"pmix.host"),
        }
    }

    /// Reads the name of a namespace that may be registered: it does not begin with `pmix`. Errors: `BadParam` for any other bytes;
    /// `NoMemory`.
    pub fn read(alloc: Global, name: &[u8]) -> Result<Nspace, Refusal>
        ensures { Gives (λ n. n) result
            (if is_nspace name.now && not (is_reserved name.now) then Ok name.now else Err refusals.BadParam) }
    {
        if is_reserved_name(name) {
            return Err(Refusal::BadParam);
        }
        Nspace::read_any(alloc, name)
    }

    /// Reads the name of any namespace, even one that begins with `pmix`. Errors: `BadParam` for bytes that are not a name; `NoMemory`.
    pub fn read_any(alloc: Global, name: &[u8]) -> Result<Nspace, Refusal>
        ensures { Gives (λ n. n) result (if is_nspace name.now then Ok name.now else Err refusals.BadParam) }
    {
        if !is_nspace_name(name) {
            return Err(Refusal::BadParam);
        }
        Ok(Nspace::from_name(alloc, name)?)
    }

    /// Returns the namespace of a name that was tested already.
    #[inline(always)]
    pub fn from_name(alloc: Global, name: &[u8]) -> Result<Nspace, AllocError>
        requires { IsTrue (is_nspace name.now) }
        ensures { IfOk result (λ n. n ≡ name.now) }
    {
        Ok(Nspace {
            name: Word::of(alloc, name)?,
        })
    }

    /// Returns the name's bytes.
    pub fn as_bytes(&self) -> &[u8]
        ensures value { result.now ≡ self.now }
        ensures name { IsTrue (is_nspace result.now) }
    {
        self.name.as_bytes()
    }

    /// Returns whether the name begins with `pmix`.
    pub fn is_reserved(&self) -> bool
        ensures { result ≡ is_reserved self.now }
    {
        is_reserved_name(self.as_bytes())
    }

    /// Returns another handle of the same name.
    pub fn copy(&self) -> Result<Nspace, AllocError>
        ensures { IfOk result (λ n. n ≡ self.now) }
    {
        Ok(Nspace {
            name: self.name.copy()?,
        })
    }
}

impl Key {
    /// Returns the reserved key that says that a process has ended, without memory.
    #[inline(always)]
    pub fn of_termination() -> Key
        ensures { result ≡ codes "pmix.term" }
    {
        Key {
            text: Word::short(b"pmix.term"),
        }
    }

    /// Reads a key that a process may put: it does not begin with `pmix`. Errors: `BadParam` for any other bytes; `NoMemory`.
    pub fn read(alloc: Global, key: &[u8]) -> Result<Key, Refusal>
        ensures { Gives (λ k. k) result
            (if is_key key.now && not (is_reserved key.now) then Ok key.now else Err refusals.BadParam) }
    {
        if is_reserved_name(key) {
            return Err(Refusal::BadParam);
        }
        Key::read_any(alloc, key)
    }

    /// Reads any key, even one that begins with `pmix`. Errors: `BadParam` for bytes that are not a key; `NoMemory`.
    pub fn read_any(alloc: Global, key: &[u8]) -> Result<Key, Refusal>
        ensures { Gives (λ k. k) result (if is_key key.now then Ok key.now else Err refusals.BadParam) }
    {
        if !is_key_text(key) {
            return Err(Refusal::BadParam);
        }
        Ok(Key::from_text(alloc, key)?)
    }

    /// Returns the key of a text that was tested already.
    #[inline(always)]
    pub fn from_text(alloc: Global, key: &[u8]) -> Result<Key, AllocError>
        requires { IsTrue (is_key key.now) }
        ensures { IfOk result (λ k. k ≡ key.now) }
    {
        Ok(Key {
            text: Word::of(alloc, key)?,
        })
    }

    /// Returns the key's bytes.
    pub fn as_bytes(&self) -> &[u8]
        ensures value { result.now ≡ self.now }
        ensures key { IsTrue (is_key result.now) }
    {
        self.text.as_bytes()
    }

    /// Returns whether the key begins with `pmix`.
    pub fn is_reserved(&self) -> bool
        ensures { result ≡ is_reserved self.now }
    {
        is_reserved_name(self.as_bytes())
    }

    /// Returns another handle of the same key.
    pub fn copy(&self) -> Result<Key, AllocError>
        ensures { IfOk result (λ k. k ≡ self.now) }
    {
        Ok(Key {
            text: self.text.copy()?,
        })
    }
}
