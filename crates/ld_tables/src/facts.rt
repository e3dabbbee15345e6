//! The dependencies of words, one by one.
ghost use Rattle.std.specs.Prelude.{◌≡◌, ◌++◌, All, IfOk, OnOk};
ghost use Rattle.ld_class.specs.Blocks.{IsBlock};
ghost use Rattle.ld_tables.specs.Inner.Edges.{edges_in, edges_of};

use crate::edges::EdgeFact;
use crate::masks::NewEdges;
use std::alloc::{AllocError, Global};

/// The dependencies that were told, one by one.
pub(crate) fn all_facts(alloc: Global, tellings: &[NewEdges]) -> Result<Vec<EdgeFact>, AllocError>
    requires { All (λ t. IsBlock t.word.block) tellings.now }
    ensures { IfOk result (λ facts. facts.items ≡ edges_of tellings.now) }
{
    let mut facts = Vec::new(alloc);
    for telling in tellings {
        add_facts(&mut facts, telling)?;
    }
    Ok(facts)
}

/// Adds the dependencies that were told at one line.
fn add_facts(facts: &mut Vec<EdgeFact>, telling: &NewEdges) -> Result<(), AllocError>
    requires { IsBlock telling.now.word.block }
    ensures { OnOk result (facts.new.items ≡ facts.old.items ++ edges_in telling.now) }
{
    let mut left = telling.bits;
    while left != 0 {
        let place = left.trailing_zeros();
        facts.push(EdgeFact {
            from: 64 * telling.word.block + place,
            to: telling.word.to,
            line: telling.line,
        })?;
        left &= !(1 << place);
    }
    Ok(())
}
