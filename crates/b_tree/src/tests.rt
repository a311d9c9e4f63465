use crate::{Binder, ExprTree, Machine, OpTree, PredTree, SubstTree};
use b_ast::machine::DefTable;
use b_values::{Face, OpId, Prefs};
use sqlite_items::Items;
use std::alloc::{AllocError, Global};
use std::test::Fail;

fn operation(alloc: Global, id: OpId, at: u64) -> OpTree {
    OpTree {
        id,
        at,
        params: Binder {
            variables: Items::new(alloc),
            predicate: PredTree::True,
        },
        body: SubstTree::From(0, ExprTree::Number(1)),
    }
}

fn machine(alloc: Global) -> Result<Machine, AllocError> {
    let mut ops = Items::new(alloc);
    ops.push(operation(alloc, OpId::Op(0), 40))?;
    ops.push(operation(alloc, OpId::Op(1), 60))?;
    Ok(Machine {
        face: Face {
            name: Items::from_slice(alloc, b"M")?,
            sets: Items::new(alloc),
            constants: Items::new(alloc),
            variables: Items::new(alloc),
            ops: Items::new(alloc),
            prefs: Prefs::default(),
        },
        properties: None,
        invariant: PredTree::True,
        init_at: 0,
        init: SubstTree::Skip,
        ops,
        defs: DefTable {
            defs: Items::new(alloc),
        },
    })
}

#[test]
fn operations_by_their_numbers(rt: HostRuntime) -> Result<(), Fail> {
    let m = machine(rt.alloc())?;
    let rows = [
        (OpId::Setup, None),
        (OpId::Init, None),
        (OpId::Op(0), Some(40)),
        (OpId::Op(1), Some(60)),
        (OpId::Op(2), None),
    ];
    for (id, want) in rows {
        let at = match m.op(id) {
            Some(op) => Some(op.at),
            None => None,
        };
        assert_eq!(rt; at, want);
    }
    Ok(())
}
