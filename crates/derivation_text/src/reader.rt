// A text read byte by byte. Each byte is judged as it comes, so that a refusal names the least place with which no text
// begins. Open nodes are a list, so that nesting costs no stack.
ghost use Rattle.std.specs.Prelude.{◌≡◌, ◌&&◌, nat_le, true, List, [], Some, option_map, vec_items};
ghost use Rattle.fip_language.specs.declared.limits.TheConstants.{MOST_FIELDS};
ghost use Rattle.fip_language.specs.Character.{is_digit};
ghost use Rattle.derivation_trees.specs.Building.{Built, built};
ghost use Rattle.derivation_text.specs.ProofText.{GREATEST};
ghost use Rattle.derivation_text.specs.Machine.{State, flats, begun, longer, going, pass_line, act_rule, rule_at};
ghost use Rattle.derivation_text.specs.Machine.{act_name, to_credits, act_variables, pass_variable, to_parts, act_credits};
ghost use Rattle.derivation_text.specs.Machine.{pass_size, pass_count, act_node, act_head, step, start, final, following_first};
ghost use Rattle.derivation_text.specs.Reading.{lines_made, Steps};

use crate::bounds::begins;
use crate::error::ByteError;
use crate::rules::{rule_at, rule_text};
use crate::spot::Spot;
use derivation_trees::{Builder, Credit, Line, RuleName};
use fip_language::characters::is_digit;
use fip_language::limits::MOST_FIELDS;
use std::alloc::Global;
use std::marker::Model;
use std::mem;

/// How deep nodes nest in a text at the most.
pub const DEEPEST_NODE: usize = 10_000;

/// What was read so far. A contract sees it as a state of the machine.
#[derive(Drop)]
pub struct Reader {
    alloc: Global,
    spot: Spot,
    lines: Vec<Line>,
    // the least value of the number that is read, and the value of its digits
    least: u64,
    number: u32,
    // the line that is read
    instance: u32,
    nodes: Builder,
    // the node that is read: its rule, the letters that are still to come, and what it uses up
    rule: RuleName,
    letters: &'static [u8],
    variables: Vec<usize>,
    credits: Vec<Credit>,
    size: u8,
}

impl Model for Reader {
    ghost Value = { State Built };

    ghost view = { λ r. record {
      spot = r.spot;
      lines = lines_made r.lines.items;
      least = r.least;
      number = r.number;
      instance = r.instance;
      nodes = built r.nodes;
      rule = r.rule;
      letters = r.letters.now;
      variables = r.variables.items;
      credits = r.credits.items;
      size = r.size;
    } };
}

impl Reader {
    /// Before the first byte.
    pub fn new(alloc: Global) -> Reader
        ensures { result ≡ start flats }
    {
        Reader {
            alloc,
            spot: Spot::Line,
            lines: Vec::new(alloc),
            least: 0,
            number: 0,
            instance: 0,
            nodes: Builder::new(alloc),
            rule: RuleName::Variable,
            letters: &[],
            variables: Vec::new(alloc),
            credits: Vec::new(alloc),
            size: 0,
        }
    }

    /// The next byte. After an error the reader is not to be used.
    pub fn take(&mut self, byte: u8) -> Result<(), ByteError>
        ensures { Steps result self.new (step flats self.old byte) }
    {
        match self.spot {
            Spot::Line => self.first_digit(Spot::LineNumber, u32::MAX, byte),
            Spot::LineNumber => self.in_line_number(byte),
            Spot::Rule => self.rule(byte),
            Spot::Name => self.name(byte),
            Spot::Variables => self.variables(byte),
            Spot::Variable => self.first_digit(Spot::VariableNumber, u32::MAX, byte),
            Spot::VariableNumber => self.in_variable(byte),
            Spot::Credits => self.credits(byte),
            Spot::Size => self.first_digit(Spot::SizeNumber, MOST_FIELDS as u32, byte),
            Spot::SizeNumber => self.in_size(byte),
            Spot::Count => self.first_digit(Spot::CountNumber, u32::MAX, byte),
            Spot::CountNumber => self.in_count(byte),
            Spot::Head => self.after_head(byte),
            Spot::Node => self.after_node(byte),
        }
    }

    // The first digit of a number that is at most this one; then the reader is at the spot.
    fn first_digit(&mut self, spot: Spot, most: u32, byte: u8) -> Result<(), ByteError>
        ensures { Steps result self.new (begun flats spot most self.old byte) }
    {
        if !is_digit(byte) || !begins(u64::from(byte - b'0'), self.least, u64::from(most)) {
            return Err(ByteError::Bad);
        }
        self.spot = spot;
        self.number = u32::from(byte - b'0');
        Ok(())
    }

    // A further digit.
    fn further_digit(&mut self, most: u32, byte: u8) -> Result<(), ByteError>
        requires { is_digit byte ≡ true }
        ensures { Steps result self.new (longer flats most self.old byte) }
    {
        if self.number == 0 {
            return Err(ByteError::Bad);
        }
        let number = 10 * u64::from(self.number) + u64::from(byte - b'0');
        if !begins(number, self.least, u64::from(most)) {
            return Err(ByteError::Bad);
        }
        match u32::try_from(number) {
            Ok(number) => {
                self.number = number;
                Ok(())
            }
            Err(_) => Err(ByteError::Bad),
        }
    }

    // Whether the number is within its bounds.
    fn fits(&self, most: u32) -> bool
        ensures { result ≡ (nat_le self.now.least self.now.number && nat_le self.now.number most) }
    {
        self.least <= u64::from(self.number) && self.number <= most
    }

    fn in_line_number(&mut self, byte: u8) -> Result<(), ByteError>
        ensures { Steps result self.new (going flats GREATEST (pass_line flats) self.old byte) }
    {
        if is_digit(byte) {
            return self.further_digit(u32::MAX, byte);
        }
        if byte != b' ' || !self.fits(u32::MAX) {
            return Err(ByteError::Bad);
        }
        self.spot = Spot::Rule;
        self.instance = self.number;
        self.nodes = Builder::new(self.alloc);
        Ok(())
    }

    // The first letter of a rule's name.
    fn rule(&mut self, byte: u8) -> Result<(), ByteError>
        ensures { Steps result self.new (act_rule flats (rule_at byte) self.old) }
    {
        match rule_at(byte) {
            None => Err(ByteError::Bad),
            Some(rule) => {
                self.spot = Spot::Name;
                self.rule = rule;
                self.letters = following_first(rule_text(rule));
                Ok(())
            }
        }
    }

    // A further letter, or what is after the name.
    fn name(&mut self, byte: u8) -> Result<(), ByteError>
        ensures { Steps result self.new (act_name flats self.old.letters self.old byte) }
    {
        match self.letters.split_first() {
            Some((letter, letters)) => {
                if byte != *letter {
                    return Err(ByteError::Bad);
                }
                self.letters = letters;
                Ok(())
            }
            None => self.after_name(byte),
        }
    }

    fn after_name(&mut self, byte: u8) -> Result<(), ByteError>
        ensures { Steps result self.new (act_name flats [] self.old byte) }
    {
        if byte == b'[' {
            self.spot = Spot::Variables;
            self.variables = Vec::new(self.alloc);
            self.least = 0;
            return Ok(());
        }
        if byte != b'!' || self.rule != RuleName::Match {
            return Err(ByteError::Bad);
        }
        self.rule = RuleName::TakingMatch;
        Ok(())
    }

    // After the bracket.
    fn variables(&mut self, byte: u8) -> Result<(), ByteError>
        ensures { Steps result self.new (act_variables flats self.old byte) }
    {
        if byte != b'|' {
            return self.first_digit(Spot::VariableNumber, u32::MAX, byte);
        }
        self.to_credits();
        Ok(())
    }

    // The variables are all there.
    fn to_credits(&mut self)
        ensures { to_credits flats self.old ≡ Some self.new }
    {
        self.spot = Spot::Credits;
        self.credits = Vec::new(self.alloc);
        self.least = 1;
    }

    fn in_variable(&mut self, byte: u8) -> Result<(), ByteError>
        ensures { Steps result self.new (going flats GREATEST (pass_variable flats) self.old byte) }
    {
        if is_digit(byte) {
            return self.further_digit(u32::MAX, byte);
        }
        if !self.fits(u32::MAX) {
            return Err(ByteError::Bad);
        }
        self.after_variable(byte)
    }

    fn after_variable(&mut self, byte: u8) -> Result<(), ByteError>
        ensures { Steps result self.new (pass_variable flats self.old byte) }
    {
        if byte == b'|' {
            self.variables.push(self.number as usize)?;
            self.to_credits();
            return Ok(());
        }
        if byte != b' ' || self.number == u32::MAX {
            return Err(ByteError::Bad);
        }
        self.variables.push(self.number as usize)?;
        self.spot = Spot::Variable;
        self.least = u64::from(self.number) + 1;
        Ok(())
    }

    // After the bar.
    fn credits(&mut self, byte: u8) -> Result<(), ByteError>
        ensures { Steps result self.new (act_credits flats self.old byte) }
    {
        if byte != b']' {
            return self.first_digit(Spot::SizeNumber, MOST_FIELDS as u32, byte);
        }
        self.to_parts()
    }

    // The credits are all there: the node is opened.
    fn to_parts(&mut self) -> Result<(), ByteError>
        ensures { Steps result self.new (to_parts flats self.old) }
    {
        let variables = mem::replace(&mut self.variables, Vec::new(self.alloc));
        let credits = mem::replace(&mut self.credits, Vec::new(self.alloc));
        self.nodes.open(self.rule, variables, credits)?;
        self.spot = Spot::Head;
        Ok(())
    }

    fn in_size(&mut self, byte: u8) -> Result<(), ByteError>
        ensures { Steps result self.new (going flats MOST_FIELDS (pass_size flats) self.old byte) }
    {
        if is_digit(byte) {
            return self.further_digit(MOST_FIELDS as u32, byte);
        }
        if byte != b':' || !self.fits(MOST_FIELDS as u32) {
            return Err(ByteError::Bad);
        }
        self.spot = Spot::Count;
        self.size = self.number as u8;
        self.least = 1;
        Ok(())
    }

    fn in_count(&mut self, byte: u8) -> Result<(), ByteError>
        ensures { Steps result self.new (going flats GREATEST (pass_count flats) self.old byte) }
    {
        if is_digit(byte) {
            return self.further_digit(u32::MAX, byte);
        }
        if !self.fits(u32::MAX) {
            return Err(ByteError::Bad);
        }
        self.after_count(byte)
    }

    fn after_count(&mut self, byte: u8) -> Result<(), ByteError>
        ensures { Steps result self.new (pass_count flats self.old byte) }
    {
        let credit = Credit {
            size: self.size,
            count: self.number,
        };
        if byte == b']' {
            self.credits.push(credit)?;
            return self.to_parts();
        }
        if byte != b' ' || usize::from(self.size) >= MOST_FIELDS {
            return Err(ByteError::Bad);
        }
        self.credits.push(credit)?;
        self.spot = Spot::Size;
        self.least = u64::from(self.size) + 1;
        Ok(())
    }

    // After a head: the first part, or else what is after the node.
    fn after_head(&mut self, byte: u8) -> Result<(), ByteError>
        ensures { Steps result self.new (act_head flats self.old byte) }
    {
        if byte != b'(' {
            self.nodes.close();
            return self.after_node(byte);
        }
        if self.nodes.depth() >= DEEPEST_NODE {
            return Err(ByteError::Bad);
        }
        self.spot = Spot::Rule;
        Ok(())
    }

    // After a node: the end of the line, or the next part or the end of the node around.
    fn after_node(&mut self, byte: u8) -> Result<(), ByteError>
        ensures { Steps result self.new (act_node flats self.old byte) }
    {
        if self.nodes.depth() == 0 {
            return self.end_line(byte);
        }
        match byte {
            b',' => {
                self.spot = Spot::Rule;
                Ok(())
            }
            b')' => {
                self.nodes.close();
                self.spot = Spot::Node;
                Ok(())
            }
            _ => Err(ByteError::Bad),
        }
    }
    // The end of the line, after its root.
    fn end_line(&mut self, byte: u8) -> Result<(), ByteError>
        requires { self.old.nodes.open_at ≡ [] }
        ensures { Steps result self.new (act_node flats self.old byte) }
    {
        if byte != b'\n' {
            return Err(ByteError::Bad);
        }
        let nodes = mem::replace(&mut self.nodes, Builder::new(self.alloc));
        self.lines.push(Line::new(self.instance as usize, nodes))?;
        self.spot = Spot::Line;
        self.least = u64::from(self.instance) + 1;
        Ok(())
    }

    /// The lines, where the text may end here.
    pub fn end(self) -> Option<Vec<Line>>
        ensures { option_map (λ v. lines_made (vec_items v)) result ≡ final self }
    {
        match self.spot {
            Spot::Line => Some(self.lines),
            _ => None,
        }
    }
}

// A slice without its first byte.
fn following_first(bytes: &'static [u8]) -> &'static [u8]
    ensures { result.now ≡ following_first bytes.now }
{
    match bytes.split_first() {
        Some((_, rest)) => rest,
        None => &[],
    }
}
