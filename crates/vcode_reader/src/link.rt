//! The function that each CALL of a program goes to.

ghost use Rattle.std.specs.Prelude.{◌≡◌, ◌≤◌, IfOk, length, map, position, unwrap_or};
ghost use Rattle.std.specs.Str.{bytes_eq};
ghost use Rattle.vcode_base.specs.declared.limits.TheConstants.{MOST_FUNCTIONS};
ghost use Rattle.vcode_reader.specs.Programs.{held_callee, held_callees};
ghost use Rattle.vcode_reader.specs.Trees.{lines_of};

use crate::program::Function;
use std::alloc::{AllocError, Allocator};
use std::collections::BTreeMap;
use std::marker::Model;
use vcode_base::Sequence;

/// The functions of a program, the place past the last of them, and the place of the first of each name. Places take
/// 16 bits.
#[derive(Drop)]
struct Linker<'a, A: Allocator> {
    functions: &'a [Function<A>],
    past: u16,
    places: BTreeMap<&'a [u8], u16, A>,
}

impl<'a, A: Allocator> Model for Linker<'a, A> {
    ghost use Rattle.std.specs.Prelude.{ℕ, List, ◌≡◌, length, position};
    ghost use Rattle.std.specs.BTreeMap.{get_by};
    ghost use Rattle.std.specs.Cmp.Lexicographic.{slice_cmp};
    ghost use Rattle.std.specs.Coded.{codes, coded_list};
    ghost use Rattle.std.specs.Ordering.{nat_cmp};
    ghost use Rattle.std.specs.Str.{bytes_eq};
    ghost use Rattle.vcode_reader.specs.Decode.{function_code};
    ghost use Rattle.vcode_reader.specs.Trees.{Function as FunctionTree};

    ghost Value = { List FunctionTree };

    ghost coded = { coded_list (function_code (Prim.hlevel codes)) };

    ghost view = { λ l. l.functions.now };

    ghost invariant = { λ l. record {
      past : l.past ≡ length l.functions.now;
      found : (name : List ℕ) → get_by (λ k. slice_cmp nat_cmp name k.now) l.places
          ≡ position (λ f. bytes_eq f.name name) l.functions.now;
    } };
}

impl<'a, A: Allocator + Clone> Linker<'a, A> {
    /// These functions. Of several of one name the first stays, since it comes last.
    fn new(alloc: A, functions: &'a [Function<A>]) -> Result<Linker<'a, A>, AllocError>
        requires { length functions.now ≤ MOST_FUNCTIONS }
        ensures { IfOk result (λ linker. linker ≡ functions.now) }
    {
        let mut places = BTreeMap::new(alloc);
        let past = functions.len() as u16;
        let mut place = past;
        while place > 0 {
            place -= 1;
            places.insert(functions[place as usize].name(), place)?;
        }
        Ok(Linker {
            functions,
            past,
            places,
        })
    }
}

impl<A: Allocator> Linker<'_, A> {
    /// The place past the last function, which stands for none.
    fn past(&self) -> u16
        ensures { result ≡ length self.now }
    {
        self.past
    }

    /// The place of the first function of this name, or else the place past the last function.
    fn place(&self, name: &[u8]) -> u16
        ensures { result ≡ unwrap_or (position (λ f. bytes_eq f.name name.now) self.now) (length self.now) }
    {
        match self.places.get(name) {
            Some(place) => *place,
            None => self.past,
        }
    }

    /// The place of the function that each line of a function calls, or else the place past the last function.
    fn callees(&self, alloc: A, function: &Function<A>) -> Result<Vec<u16, A>, AllocError>
        ensures { IfOk result (λ found. found.items ≡ map (held_callee self.now) (lines_of function.now)) }
    {
        let past = self.past();
        let count = function.line_count();
        let mut found = Vec::with_capacity(alloc, count)?;
        for place in 0..count {
            let Some(name) = function.called(place) else {
                found.push_reserved(past);
                continue;
            };
            found.push_reserved(self.place(name));
        }
        Ok(found)
    }
}

/// What [`Linker::callees`] finds for each function.
#[tactic(auto, unfolding(crate::specs::Programs::held_callees), using(crate::proofs::Callees::callees_all))]
pub(crate) fn callees_of<A: Allocator + Clone>(
    alloc: A,
    functions: &[Function<A>],
) -> Result<Vec<Sequence<u16, A>, A>, AllocError>
    requires { length functions.now ≤ MOST_FUNCTIONS }
    ensures { IfOk result (λ found. found.items ≡ held_callees functions.now) }
{
    let linker = Linker::new(alloc.clone()?, functions)?;
    let mut found = Vec::with_capacity(alloc.clone()?, functions.len())?;
    for function in functions {
        let callees = linker.callees(alloc.clone()?, function)?;
        found.push(Sequence::from_vec(callees))?;
    }
    Ok(found)
}
