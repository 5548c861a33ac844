//! A text that is built by calls without an answer.
//!
//! A text that grows by `push_str` has a way out at each piece. A builder keeps whether memory was refused: from then
//! on it takes nothing, and [`StringBuilder::finish`] answers the error.
#![tactic(auto)]

ghost use Rattle.std.specs.Prelude.{◌≡◌, ◌↔◌, [], false, IsTrue, IsErr, IfOk, Some, None, MatchResult};
ghost use Rattle.std.specs.Prelude.{string_bytes, encode_utf8, decimal};
ghost use Rattle.string_builder.specs.Built.{Adds};

use itoa::Buffer;
use std::alloc::{AllocError, Allocator};
use std::marker::Model;

/// A text that grows, up to the first refusal of memory.
#[derive(Drop)]
pub struct StringBuilder<A: Allocator> {
    text: String<A>,
    refused: bool,
}

impl<A: Allocator> Model for StringBuilder<A> {
    ghost use Rattle.std.specs.Prelude.{string_bytes};
    ghost use Rattle.string_builder.specs.Built.{Built};

    ghost Value = { Built };

    ghost view = { λ builder. record { bytes = string_bytes builder.text; refused = builder.refused } };
}

impl<A: Allocator> StringBuilder<A> {
    /// An empty text. It takes no memory.
    pub fn new(alloc: A) -> StringBuilder<A>
        ensures bytes { result.bytes ≡ [] }
        ensures refused { result.refused ≡ false }
    {
        StringBuilder {
            text: String::new(alloc),
            refused: false,
        }
    }

    /// Adds a text.
    pub fn push_str(&mut self, text: &str)
        ensures { Adds self.old self.new text.now }
    {
        if !self.refused {
            self.refused = self.text.push_str(text).is_err();
        }
    }

    /// Adds a character.
    pub fn push(&mut self, character: char)
        ensures { Adds self.old self.new (encode_utf8 character) }
    {
        if !self.refused {
            self.refused = self.text.push(character).is_err();
        }
    }

    /// Adds a number in decimal digits.
    pub fn push_number(&mut self, number: u64)
        ensures { Adds self.old self.new (decimal number) }
    {
        let mut buffer = Buffer::new();
        self.push_str(buffer.format(number));
    }

    /// What an answer has, or none if memory was refused for it. The builder keeps that.
    pub fn get<T>(&mut self, answer: Result<T, AllocError>) -> Option<T>
        ensures value { MatchResult answer (λ value. result ≡ Some value) (λ _. result ≡ None) }
        ensures bytes { self.new.bytes ≡ self.old.bytes }
        ensures refused { MatchResult answer (λ _. self.new.refused ≡ self.old.refused) (λ _. IsTrue self.new.refused) }
    {
        match answer {
            Ok(value) => Some(value),
            Err(AllocError) => {
                self.refused = true;
                None
            }
        }
    }

    /// Whether memory was refused.
    pub fn is_refused(&self) -> bool
        ensures { result ≡ self.now.refused }
    {
        self.refused
    }

    /// The text so far.
    ///
    /// # Errors
    ///
    /// [`AllocError`] if memory was refused.
    pub fn as_str(&self) -> Result<&str, AllocError>
        ensures text { IfOk result (λ text. text.now ≡ self.now.bytes) }
        ensures refused { IsErr result ↔ IsTrue self.now.refused }
    {
        if self.refused {
            return Err(AllocError);
        }
        Ok(self.text.as_str())
    }

    /// Takes away what was added. Its memory is kept for what is added next, and so is whether memory was refused.
    pub fn clear(&mut self)
        ensures bytes { self.new.bytes ≡ [] }
        ensures refused { self.new.refused ≡ self.old.refused }
    {
        self.text.clear();
    }

    /// The text.
    ///
    /// # Errors
    ///
    /// [`AllocError`] if memory was refused.
    pub fn finish(self) -> Result<String<A>, AllocError>
        ensures text { IfOk result (λ text. string_bytes text ≡ self.bytes) }
        ensures refused { IsErr result ↔ IsTrue self.refused }
    {
        if self.refused {
            return Err(AllocError);
        }
        Ok(self.text)
    }
}
