ghost use Rattle.b_values.specs.Preferences.{AreInRange};
ghost use Rattle.engine_face.specs.Counting.{uncounted};
ghost use Rattle.std.specs.Prelude.{◌≡◌, IfOk};

use crate::answers::{
    confirmed_of, formula_row, found_of, key_of, lists_of, number, packed_state, value_of,
};
use crate::face::TableFace;
use crate::listing::{FormulaRow, Row, TableState};
use b_values::{Face, OpId, Prefs, Value};
use engine_face::{
    Confirmed, Counts, Engine, FormulaKey, Found, KeyFault, LoadKind, Packed, SavedStep, Scope,
    StepList, ValueAnswer,
};
use sqlite_items::Items;
use std::alloc::{AllocError, Global};

/// The questions, by their number from 1, that are answered by want of memory.
#[derive(Drop)]
pub struct Refusals {
    pub refused: Items<u64>,
    pub asked: u64,
}

impl Refusals {
    /// Counts a question, and refuses it where it is listed.
    fn grant(&mut self) -> Result<(), AllocError> {
        self.asked = self.asked.saturating_add(1);
        let asked = self.asked;
        if self.refused.as_slice().iter().any(|n| *n == asked) {
            return Err(AllocError);
        }
        Ok(())
    }
}

/// A table of states, with formulas and their answers. Its preferences may be any.
#[derive(Drop)]
pub struct Table {
    pub face: TableFace,
    pub rows: Items<Row>,
    pub formulas: Items<FormulaRow>,
    pub refusals: Refusals,
    pub counts: Counts,
    ghost in_range: { AreInRange face },
}

impl Table {
    pub fn new(
        alloc: Global,
        prefs: Prefs,
        rows: Items<Row>,
        formulas: Items<FormulaRow>,
        refused: Items<u64>,
    ) -> Result<Table, AllocError>
        requires { AreInRange prefs }
        ensures prefs { IfOk result (λ t. t.face ≡ prefs) }
        ensures rows { IfOk result (λ t. t.rows ≡ rows) }
        ensures formulas { IfOk result (λ t. t.formulas ≡ formulas) }
        ensures counts { IfOk result (λ t. t.counts ≡ uncounted) }
    {
        Ok(Table {
            face: TableFace::new(alloc, prefs)?,
            rows,
            formulas,
            refusals: Refusals { refused, asked: 0 },
            counts: Counts::none(),
        })
    }
}

impl Engine for Table {
    ghost use Rattle.table_engine.specs.Tables.{meaning_of, table_unpack};
    ghost use Rattle.table_engine.specs.TableLaws.{table_spells_once, table_states_fit, table_keys_have_texts, table_face_fits};

    ghost meaning = { λ t. meaning_of t.face t.rows t.formulas };

    ghost unpack = { λ t. table_unpack };

    ghost counts = { λ t. t.counts };

    fn face(&self) -> &Face {
        self.face.get()
    }

    fn counts(&self) -> Counts {
        self.counts
    }

    fn expand(&mut self, alloc: Global, at: &Packed) -> Result<StepList<Packed>, AllocError> {
        self.counts.count_expand();
        self.refusals.grant()?;
        let n = number(at);
        let list = lists_of(alloc, self.rows.as_slice(), n)?;
        Ok(list)
    }

    fn value(
        &mut self,
        alloc: Global,
        at: &Packed,
        key: &FormulaKey,
    ) -> Result<ValueAnswer, AllocError> {
        self.counts.count_value();
        self.refusals.grant()?;
        let n = number(at);
        Ok(value_of(self.formulas.as_slice(), key, n))
    }

    fn find(
        &mut self,
        alloc: Global,
        at: &Packed,
        op: OpId,
        preds: &[FormulaKey],
    ) -> Result<Found<Packed>, AllocError> {
        self.counts.count_find();
        self.refusals.grant()?;
        let n = number(at);
        let answer = found_of(alloc, self.rows.as_slice(), op, n)?;
        Ok(answer)
    }

    fn confirm(
        &mut self,
        alloc: Global,
        at: &Packed,
        saved: &SavedStep,
    ) -> Result<Confirmed<Packed>, AllocError> {
        self.counts.count_confirm();
        self.refusals.grant()?;
        let n = number(at);
        let answer = confirmed_of(alloc, self.rows.as_slice(), saved.name.as_slice(), n)?;
        Ok(answer)
    }

    fn read_formula(
        &self,
        alloc: Global,
        scope: Scope,
        text: &[u8],
    ) -> Result<FormulaKey, KeyFault> {
        match formula_row(self.formulas.as_slice(), text) {
            None => Err(KeyFault::Refused(LoadKind::NotASentence)),
            Some(row) => match key_of(alloc, row) {
                Ok(key) => Ok(key),
                Err(_) => Err(KeyFault::Memory),
            },
        }
    }

    fn canonical(&self, alloc: Global, key: &FormulaKey) -> Result<Vec<u8>, AllocError> {
        key.text.as_slice().to_vec(alloc)
    }

    fn root(&self, alloc: Global) -> Result<Packed, AllocError> {
        packed_state(alloc, TableState::Root)
    }

    #[tactic(auto, using(crate::specs::TableLaws::values_made))]
    fn values_of(&self, alloc: Global, at: &Packed) -> Result<Items<Value>, AllocError> {
        let mut values = Items::new(alloc);
        let n = number(at);
        if n > 0 {
            values.push(Value::Int(i128::from(n)))?;
        }
        Ok(values)
    }

    ghost one_spelling = { λ t. table_spells_once };

    ghost states_fit = { λ t. table_states_fit t.face };

    ghost keys_have_texts = { λ t. table_keys_have_texts t.face t.rows t.formulas };

    ghost face_fits = { λ t. table_face_fits t.face t.in_range };
}
