ghost use Rattle.std.specs.Prelude.{◌≡◌, [], IfOk};
ghost use Rattle.table_engine.specs.Faces.{table_face};

use b_values::{Face, NameFace, OpFace, Prefs, Ty};
use sqlite_items::Items;
use std::alloc::{AllocError, Global};
use std::marker::Model;

/// The face of a table. Contracts see its preferences, which are all that differs.
#[derive(Drop)]
pub struct TableFace {
    face: Face,
}

impl Model for TableFace {
    ghost use Rattle.b_values.specs.declared.types.Prefs.{Prefs};
    ghost use Rattle.std.specs.Prelude.{◌≡◌};
    ghost use Rattle.table_engine.specs.Faces.{table_face};

    ghost Value = { Prefs };

    ghost view = { λ f. f.face.prefs };

    ghost invariant = { λ f. f.face ≡ table_face f.face.prefs };
}

fn op_face(alloc: Global, name: &[u8]) -> Result<OpFace, AllocError>
    ensures { IfOk result (λ f. f ≡ record { name = name.now; params = []; results = [] }) }
{
    Ok(OpFace {
        name: Items::from_slice(alloc, name)?,
        params: Items::new(alloc),
        results: Items::new(alloc),
    })
}

impl TableFace {
    pub fn new(alloc: Global, prefs: Prefs) -> Result<TableFace, AllocError>
        ensures { IfOk result (λ f. f ≡ prefs) }
    {
        let mut variables = Items::new(alloc);
        variables.push(NameFace {
            name: Items::from_slice(alloc, b"n")?,
            ty: Ty::Int,
        })?;
        let mut ops = Items::new(alloc);
        ops.push(op_face(alloc, b"up")?)?;
        ops.push(op_face(alloc, b"down")?)?;
        Ok(TableFace {
            face: Face {
                name: Items::from_slice(alloc, b"Table")?,
                sets: Items::new(alloc),
                constants: Items::new(alloc),
                variables,
                ops,
                prefs,
            },
        })
    }

    pub fn get(&self) -> &Face
        ensures { result.now ≡ table_face self.now }
    {
        &self.face
    }
}
