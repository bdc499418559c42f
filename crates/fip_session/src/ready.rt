// The values of a call come to life, and the cells of its entry's credits.
ghost use Rattle.std.specs.Prelude.{◌≡◌, List, [], map, drop, IfOk};
ghost use Rattle.fip_language.specs.Core.{Name};
ghost use Rattle.fip_language.specs.Values.{Value, Values};
ghost use Rattle.session_lines.specs.Said.{IsGiven, AreGiven};
ghost use Rattle.session_lines.specs.session_semantics.Lines.{Given as a_given, Fresh as a_new, Written as a_written};
ghost use Rattle.session_lines.specs.session_semantics.Lines.{WrittenText, symbols};
ghost use Rattle.session_lines.specs.session_semantics.Typed.{IsValue};
ghost use Rattle.session_lines.specs.session_semantics.Talk.{IsTaken, AreTaken};
ghost use Rattle.session_correctness.specs.Lodging.{Lodged, holding_of};
ghost use Rattle.value_text.specs.Loaded.{types_of, AreCredits};
ghost use Rattle.fip_session.specs.Planned.{Finds, CanTake, CanTakeAll, IsHeld, AreHeld};
ghost use Rattle.fip_session.specs.Readied.{Lie, IsPut, ArePut, IsReady};

use crate::book::{Book, Held};
use crate::plan::Plan;
use cell_store::Loader;
use fip_base::plain::{NoMemory, Param};
use session_lines::{CallLine, Span, Written};
use std::alloc::Global;
use value_text::{make_credits, make_value};

/// A value of a line, whose cells are made.
#[derive(Clone, Copy, PartialEq, Eq)]
pub struct Fresh {
    pub held: Held,
    /// Whether it is given for a lent parameter.
    pub is_lent: bool,
}

/// What a call is run on.
#[derive(Drop)]
pub struct Ready {
    /// The words of the arguments, and after them those of the credits' cells.
    pub words: Vec<u64>,
    /// The values of the line.
    pub values: Vec<Fresh>,
    /// The words of the credits' cells.
    pub credits: Vec<u64>,
}

impl Ready {
    // Nothing yet.
    fn none(alloc: Global) -> Ready
        ensures words { result.words.items ≡ [] }
        ensures values { result.values.items ≡ [] }
    {
        Ready {
            words: Vec::new(alloc),
            values: Vec::new(alloc),
            credits: Vec::new(alloc),
        }
    }

    // An argument's word. The cells of a value are made.
    fn add_argument(
        &mut self,
        book: &Book,
        bytes: &[u8],
        param: Param,
        written: Written,
        loader: Loader,
    ) -> Result<Loader, NoMemory>
        requires held { IsHeld book.now.held written }
        ensures put { CanTake book.now.table.now param.ty bytes.now → (ls : List Lodged) → Finds book.now.held ls →
            Lie book.now.table.now ls loader → (before : List Name) (g : a_given) (v : Value) →
            IsGiven bytes.now written.entry g → IsTaken book.now.table.now (map holding_of ls) before param g v →
            IfOk result (λ next. IsPut book.now.table.now ls before param g v loader next self.old self.new) }
    {
        match written {
            Written::Name(name) => {
                let Some(held) = book.find(name) else {
                    unreachable!()
                };
                self.words.push(held.word)?;
                Ok(loader)
            }
            Written::Value(span) => self.add_value(book, bytes, param, span, loader),
        }
    }

    // The word of a value, whose cells are made.
    fn add_value(
        &mut self,
        book: &Book,
        bytes: &[u8],
        param: Param,
        span: Span,
        loader: Loader,
    ) -> Result<Loader, NoMemory>
        ensures put { CanTake book.now.table.now param.ty bytes.now → (ls : List Lodged) (before : List Name)
            (w : a_written) (v : Value) →
            WrittenText (symbols (drop span.start bytes.now)) w (symbols (drop span.end bytes.now)) →
            IsValue book.now.table.now param.ty w v → IfOk result (λ next.
            IsPut book.now.table.now ls before param (a_new w) v loader next self.old self.new) }
    {
        let made = make_value(book.alloc, book.table, param.ty, bytes, span.start, loader);
        // The value was read before, so that nothing but memory can be wanting.
        let Ok((next, word)) = made else {
            return Err(NoMemory);
        };
        self.words.push(word)?;
        self.values.push(Fresh {
            held: Held { ty: param.ty, word },
            is_lent: param.lent,
        })?;
        Ok(next)
    }

    // The words of the arguments. The cells of the values are made.
    fn add_arguments(
        &mut self,
        book: &Book,
        bytes: &[u8],
        params: &[Param],
        arguments: &[Written],
        loader: Loader,
    ) -> Result<Loader, NoMemory>
        requires held { AreHeld book.now.held arguments.now }
        ensures put { self.old.words.items ≡ [] → self.old.values.items ≡ [] →
            CanTakeAll book.now.table.now (types_of params.now) bytes.now → (ls : List Lodged) → Finds book.now.held ls →
            Lie book.now.table.now ls loader → (gs : List a_given) → AreGiven bytes.now arguments.now gs →
            (vs : Values) → AreTaken book.now.table.now (map holding_of ls) [] params.now gs vs → IfOk result (λ next.
            ArePut book.now.table.now ls params.now gs vs loader next self.new) }
    {
        let mut loader = loader;
        for (param, written) in params.iter().zip(arguments.iter()) {
            loader = self.add_argument(book, bytes, *param, *written, loader)?;
        }
        Ok(loader)
    }
}

/// Makes the cells of a call's values and of its entry's credits, for which the loader has room.
pub fn make_ready(
    book: &Book,
    bytes: &[u8],
    plan: &Plan,
    line: &CallLine,
    loader: Loader,
) -> Result<(Loader, Ready), NoMemory>
    requires held { AreHeld book.now.held line.now.arguments.items }
    ensures made { AreCredits plan.now.function.now.credits.items →
        CanTakeAll book.now.table.now (types_of plan.now.function.now.params) bytes.now → (ls : List Lodged) →
        Finds book.now.held ls → Lie book.now.table.now ls loader → (gs : List a_given) →
        AreGiven bytes.now line.now.arguments.items gs → (vs : Values) →
        AreTaken book.now.table.now (map holding_of ls) [] plan.now.function.now.params gs vs → IfOk result (λ r.
        IsReady book.now.table.now ls plan.now.function.now.params plan.now.function.now.credits.items gs vs
        loader r.0 r.1) }
{
    let mut ready = Ready::none(book.alloc);
    let params = plan.function.params.as_slice();
    let arguments = line.arguments.as_slice();
    let loader = ready.add_arguments(book, bytes, params, arguments, loader)?;
    // The room was counted before, so that nothing but memory can be wanting.
    let made = make_credits(book.alloc, plan.function.credits.as_slice(), loader);
    let Ok((loader, credits)) = made else {
        return Err(NoMemory);
    };
    ready.words.extend_from_slice(credits.as_slice())?;
    ready.credits = credits;
    Ok((loader, ready))
}
