// Drawn lines of a session. Most calls have arguments of the right types; some lines are wrong in one way or another.

use crate::sessions::draws::Draws;
use crate::sessions::values::put_value;
use cell_code::{Code, Function};
use fip_base::plain::{NoMemory, Param};
use fip_base::table::TypeTable;
use fip_session::Session;
use std::alloc::Global;

/// All names that a drawn line may have.
pub const NAMES: &[u8; 8] = b"abcdefgh";

// Lines of none of the three forms, and calls that are refused.
const WRONG: &[&[u8]] = &[
    b"",
    b"a",
    b"a, = rev(Nil, Nil)",
    b"a = rev(Nil, Nil",
    b"? z",
    b"- z",
    b"a = none(Nil)",
    b"a = rev(Nil)",
    b"a, b = rev(Nil, Nil)",
    b"a = rev(Nil, 7)",
];

/// A drawn line. Of a call: the names that it uses up, and those of its results.
#[derive(Drop)]
pub struct Drawn {
    pub text: Vec<u8>,
    pub used: Vec<u8>,
    pub results: Vec<u8>,
}

impl Drawn {
    fn new(alloc: Global) -> Drawn {
        Drawn {
            text: Vec::new(alloc),
            used: Vec::new(alloc),
            results: Vec::new(alloc),
        }
    }
}

// The arguments of a call: their text, the names that are given, and those of them that the call uses up.
#[derive(Drop)]
struct Arguments {
    text: Vec<u8>,
    given: Vec<u8>,
    used: Vec<u8>,
}

// A name that holds a value of a type and isn't among those that were given.
fn name_of_type(session: &Session, ty: u32, given: &[u8], draws: &mut Draws) -> Option<u8> {
    let start = draws.below(8);
    for i in 0..8 {
        let name = NAMES[(start + i) % 8];
        if let Some(held) = session.held(&[name])
            && held.ty == ty
            && !given.contains(&name)
        {
            return Some(name);
        }
    }
    None
}

// A name that holds nothing, or is used up, and isn't taken; any name where there is none.
fn free_name(session: &Session, used: &[u8], taken: &[u8], draws: &mut Draws) -> u8 {
    let start = draws.below(8);
    for i in 0..8 {
        let name = NAMES[(start + i) % 8];
        let is_free = session.held(&[name]).is_none() || used.contains(&name);
        if is_free && !taken.contains(&name) {
            return name;
        }
    }
    NAMES[start]
}

// Whether each name holds a value.
fn is_full(session: &Session) -> bool {
    for name in NAMES {
        if session.held(&[*name]).is_none() {
            return false;
        }
    }
    true
}

// Whether a call uses up what it is given for a parameter.
fn uses_up(table: &TypeTable, param: Param) -> bool {
    !param.lent && param.ty as usize <= table.len() && !table.is_scalar(param.ty)
}

// One argument: a name that holds a value of its type, or a value, or seldom any name.
fn put_argument(
    alloc: Global,
    session: &Session,
    table: &TypeTable,
    param: Param,
    draws: &mut Draws,
    arguments: &mut Arguments,
) -> Result<(), NoMemory> {
    if draws.is_in(2) {
        arguments.text.push(NAMES[draws.below(8)])?;
        return Ok(());
    }
    if draws.is_in(70)
        && let Some(name) = name_of_type(session, param.ty, arguments.given.as_slice(), draws)
    {
        arguments.text.push(name)?;
        arguments.given.push(name)?;
        if uses_up(table, param) {
            arguments.used.push(name)?;
        }
        return Ok(());
    }
    put_value(alloc, table, param.ty, draws, &mut arguments.text)
}

// The arguments of a call of a function.
fn drawn_arguments(
    alloc: Global,
    session: &Session,
    table: &TypeTable,
    function: &Function,
    draws: &mut Draws,
) -> Result<Arguments, NoMemory> {
    let mut arguments = Arguments {
        text: Vec::new(alloc),
        given: Vec::new(alloc),
        used: Vec::new(alloc),
    };
    for (i, param) in function.params.as_slice().iter().enumerate() {
        if i > 0 {
            arguments.text.extend_from_slice(b", ")?;
        }
        put_argument(alloc, session, table, *param, draws, &mut arguments)?;
    }
    Ok(arguments)
}

// The names of so many results, with commas between them.
fn put_results(
    session: &Session,
    count: usize,
    used: &[u8],
    draws: &mut Draws,
    line: &mut Drawn,
) -> Result<(), NoMemory> {
    for i in 0..count {
        if i > 0 {
            line.text.extend_from_slice(b", ")?;
        }
        let name = if draws.is_in(3) {
            NAMES[draws.below(8)]
        } else {
            free_name(session, used, line.results.as_slice(), draws)
        };
        line.text.push(name)?;
        line.results.push(name)?;
    }
    Ok(())
}

// A call of a function.
fn drawn_call(
    alloc: Global,
    session: &Session,
    table: &TypeTable,
    function: &Function,
    draws: &mut Draws,
) -> Result<Drawn, NoMemory> {
    let arguments = drawn_arguments(alloc, session, table, function, draws)?;
    let mut line = Drawn::new(alloc);
    let count = function.results.as_slice().len();
    put_results(session, count, arguments.used.as_slice(), draws, &mut line)?;
    line.text.extend_from_slice(b" = ")?;
    line.text.extend_from_slice(function.name.as_slice())?;
    line.text.push(b'(')?;
    line.text.extend_from_slice(arguments.text.as_slice())?;
    line.text.push(b')')?;
    line.used = arguments.used;
    Ok(line)
}

// A line of a sign and a name.
fn drawn_sign(alloc: Global, sign: u8, draws: &mut Draws) -> Result<Drawn, NoMemory> {
    let mut line = Drawn::new(alloc);
    line.text.push(sign)?;
    line.text.push(NAMES[draws.below(8)])?;
    Ok(line)
}

// A line that is refused.
fn wrong_line(alloc: Global, draws: &mut Draws) -> Result<Drawn, NoMemory> {
    let mut line = Drawn::new(alloc);
    if let Some(text) = WRONG.get(draws.below(WRONG.len().max(1))) {
        line.text.extend_from_slice(text)?;
    }
    Ok(line)
}

// A call of one of the functions of a code.
fn some_call(
    alloc: Global,
    session: &Session,
    code: &Code,
    draws: &mut Draws,
) -> Result<Drawn, NoMemory> {
    let number = draws.below(code.functions.len().max(1));
    match code.functions.get(number) {
        Some(function) => drawn_call(alloc, session, &code.types, function, draws),
        None => wrong_line(alloc, draws),
    }
}

/// A line that is drawn for what the names of a session hold.
pub fn drawn_line(
    alloc: Global,
    session: &Session,
    code: &Code,
    draws: &mut Draws,
) -> Result<Drawn, NoMemory> {
    if is_full(session) && draws.is_in(60) {
        return drawn_sign(alloc, b'-', draws);
    }
    match draws.below(20) {
        0 | 1 => wrong_line(alloc, draws),
        2 => drawn_sign(alloc, b'?', draws),
        3 | 4 => drawn_sign(alloc, b'-', draws),
        _ => some_call(alloc, session, code, draws),
    }
}
