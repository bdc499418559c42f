// The core form of a program as text.

use fip_base::core_form::{
    Argument, Binder, Binding, Block, Clause, Core, Expression, MatchKind, Pattern,
};
use fip_base::plain::{NoMemory, Operator, Place};
use std::alloc::Global;

// A text that grows.
#[derive(Drop)]
struct Text {
    alloc: Global,
    bytes: Vec<u8>,
}

fn sign_of(operator: Operator) -> &'static [u8] {
    match operator {
        Operator::Add => b"+",
        Operator::Subtract => b"-",
        Operator::Multiply => b"*",
        Operator::Divide => b"/",
        Operator::Remainder => b"%",
        Operator::Equal => b"==",
        Operator::NotEqual => b"!=",
        Operator::Less => b"<",
        Operator::LessOrEqual => b"<=",
        Operator::Greater => b">",
        Operator::GreaterOrEqual => b">=",
    }
}

impl Text {
    fn put(&mut self, bytes: &[u8]) -> Result<(), NoMemory> {
        self.bytes.extend_from_slice(bytes)?;
        Ok(())
    }

    fn put_place(&mut self, place: Place) -> Result<(), NoMemory> {
        let text = format!(in self.alloc; "@{}:{}", place.line, place.col)?;
        self.put(text.as_bytes())
    }

    fn put_int(&mut self, value: i64) -> Result<(), NoMemory> {
        let text = format!(in self.alloc; "{}", value)?;
        self.put(text.as_bytes())
    }

    fn put_number(&mut self, number: usize) -> Result<(), NoMemory> {
        let text = format!(in self.alloc; ".{}", number)?;
        self.put(text.as_bytes())
    }

    fn put_binder(&mut self, binder: &Binder) -> Result<(), NoMemory> {
        self.put(binder.name.as_slice())?;
        self.put_number(binder.number)?;
        self.put_place(binder.place)
    }

    #[cycle(argument)]
    fn put_argument(&mut self, a: &Argument) -> Result<(), NoMemory> {
        match a {
            Argument::Variable {
                binder,
                name,
                place,
            } => {
                self.put(name.as_slice())?;
                match binder {
                    Some(number) => self.put_number(*number)?,
                    None => self.put(b".?")?,
                }
                self.put_place(*place)
            }
            Argument::Literal { value, place } => {
                self.put_int(*value)?;
                self.put_place(*place)
            }
            Argument::Constructor {
                name,
                place,
                arguments,
            } => {
                self.put(name.as_slice())?;
                self.put_place(*place)?;
                self.put_arguments(arguments.as_slice())
            }
        }
    }

    #[cycle(argument)]
    fn put_arguments(&mut self, arguments: &[Argument]) -> Result<(), NoMemory> {
        self.put(b"(")?;
        for (i, a) in arguments.iter().enumerate() {
            if i > 0 {
                self.put(b", ")?;
            }
            self.put_argument(a)?;
        }
        self.put(b")")
    }

    #[cycle(pattern)]
    fn put_pattern(&mut self, p: &Pattern) -> Result<(), NoMemory> {
        match p {
            Pattern::Binder(binder) => {
                self.put(binder.name.as_slice())?;
                self.put_number(binder.number)
            }
            Pattern::Literal { value, .. } => self.put_int(*value),
            Pattern::Constructor { name, patterns, .. } => {
                self.put(name.as_slice())?;
                self.put_patterns(patterns.as_slice())
            }
        }
    }

    #[cycle(pattern)]
    fn put_patterns(&mut self, patterns: &[Pattern]) -> Result<(), NoMemory> {
        if patterns.is_empty() {
            return Ok(());
        }
        self.put(b"(")?;
        for (i, p) in patterns.iter().enumerate() {
            if i > 0 {
                self.put(b", ")?;
            }
            self.put_pattern(p)?;
        }
        self.put(b")")
    }

    fn put_sign(&mut self, operator: Operator, place: Place) -> Result<(), NoMemory> {
        self.put(b" ")?;
        self.put(sign_of(operator))?;
        self.put_place(place)?;
        self.put(b" ")
    }

    // A match up to its clauses.
    fn put_head(
        &mut self,
        kind: MatchKind,
        place: Place,
        scrutinee: &Argument,
    ) -> Result<(), NoMemory> {
        self.put(match kind {
            MatchKind::Borrowing => b"match",
            MatchKind::Destructive => b"match!",
        })?;
        self.put_place(place)?;
        self.put(b" ")?;
        self.put_argument(scrutinee)
    }

    #[cycle(block)]
    fn put_expression(&mut self, e: &Expression) -> Result<(), NoMemory> {
        match e {
            Expression::Give(a) => self.put_argument(a),
            Expression::Tuple { place, arguments } => {
                self.put_place(*place)?;
                self.put_arguments(arguments.as_slice())
            }
            Expression::Operation {
                operator,
                place,
                left,
                right,
            } => {
                self.put_argument(left)?;
                self.put_sign(*operator, *place)?;
                self.put_argument(right)
            }
            Expression::Call {
                name,
                place,
                arguments,
                ..
            } => {
                self.put(name.as_slice())?;
                self.put_place(*place)?;
                self.put_arguments(arguments.as_slice())
            }
            Expression::Match {
                kind,
                place,
                scrutinee,
                clauses,
            } => {
                self.put_head(*kind, *place, scrutinee)?;
                self.put_clauses(clauses.as_slice())
            }
            Expression::Nested(block) => self.put_block(block),
        }
    }

    #[cycle(block)]
    fn put_clauses(&mut self, clauses: &[Clause]) -> Result<(), NoMemory> {
        self.put(b" { ")?;
        for (i, clause) in clauses.iter().enumerate() {
            if i > 0 {
                self.put(b"; ")?;
            }
            self.put_pattern(&clause.pattern)?;
            self.put(b" -> ")?;
            self.put_block(&clause.body)?;
        }
        self.put(b" }")
    }

    #[cycle(block)]
    fn put_block(&mut self, block: &Block) -> Result<(), NoMemory> {
        self.put_bindings(block.bindings.as_slice())?;
        self.put_expression(&block.last)
    }

    #[cycle(block)]
    fn put_bindings(&mut self, bindings: &[Binding]) -> Result<(), NoMemory> {
        for binding in bindings {
            self.put(b"let ")?;
            self.put_binders(binding.binders.as_slice())?;
            self.put(b" = ")?;
            self.put_expression(&binding.bound)?;
            self.put(b"; ")?;
        }
        Ok(())
    }

    fn put_binders(&mut self, binders: &[Binder]) -> Result<(), NoMemory> {
        for (i, binder) in binders.iter().enumerate() {
            if i > 0 {
                self.put(b", ")?;
            }
            self.put_binder(binder)?;
        }
        Ok(())
    }
}

/// The bodies of a program's functions, a line each.
pub fn bodies(alloc: Global, core: &Core) -> Result<Vec<u8>, NoMemory> {
    let mut text = Text {
        alloc,
        bytes: Vec::new(alloc),
    };
    for f in core.functions.as_slice() {
        text.put_block(&f.body)?;
        text.put(b"\n")?;
    }
    Ok(text.bytes)
}
