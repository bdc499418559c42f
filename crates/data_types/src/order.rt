// An order in which the data types are looked at for values. It only makes that search fast: a type is after those
// that its first value needs, where it has one whose types all have one, arguments included.
use fip_base::plain::NoMemory;
use fip_trees::decls::{DeclaredType, FieldType};
use std::alloc::Global;
use std::mem;

// A constructor, which waits until all data types that its fields mention are in the order.
#[derive(Clone, Copy)]
struct Pending {
    // The place of its data type.
    owner: usize,
    // How many mentions of data types that aren't in the order yet it has.
    missing: usize,
}

#[derive(Drop)]
struct Ordering {
    pending: Vec<Pending>,
    // At the place of a data type the places of the constructors that wait for it, once for each mention.
    waiting: Vec<Vec<usize>>,
    // At the place of a data type whether it is in the order.
    is_ordered: Vec<bool>,
    order: Vec<usize>,
}

/// The places of data types, each once; those that have a value only where an argument has none are left out.
pub fn order_of(alloc: Global, types: &[DeclaredType<'_>]) -> Result<Vec<usize>, NoMemory> {
    let mut ordering = Ordering {
        pending: Vec::new(alloc),
        waiting: Vec::new(alloc),
        is_ordered: Vec::new(alloc),
        order: Vec::new(alloc),
    };
    for _ in types {
        ordering.waiting.push(Vec::new(alloc))?;
        ordering.is_ordered.push(false)?;
    }
    for (owner, ty) in types.iter().enumerate() {
        ordering.add_type(owner, ty)?;
    }
    for i in 0..types.len() {
        match ordering.order.get(i).copied() {
            Some(place) => ordering.go_on(alloc, place)?,
            None => return Ok(ordering.order),
        }
    }
    Ok(ordering.order)
}

impl Ordering {
    fn add_type(&mut self, owner: usize, ty: &DeclaredType<'_>) -> Result<(), NoMemory> {
        for constructor in &ty.constructors {
            let place = self.pending.len();
            self.pending.push(Pending { owner, missing: 0 })?;
            self.mention_all(place, &constructor.fields)?;
            self.settle(place)?;
        }
        Ok(())
    }

    #[cycle(mentions)]
    fn mention_all(&mut self, constructor: usize, types: &[FieldType]) -> Result<(), NoMemory> {
        for ty in types {
            self.mention(constructor, ty)?;
        }
        Ok(())
    }

    #[cycle(mentions)]
    fn mention(&mut self, constructor: usize, ty: &FieldType) -> Result<(), NoMemory> {
        match ty {
            FieldType::Int => Ok(()),
            FieldType::Parameter(_) => Ok(()),
            FieldType::Applied(number, arguments) => {
                self.wait(constructor, *number)?;
                self.mention_all(constructor, arguments)
            }
        }
    }

    // A constructor waits for the data type of a number.
    fn wait(&mut self, constructor: usize, number: u32) -> Result<(), NoMemory> {
        let place = (number as usize).saturating_sub(1);
        if constructor < self.pending.len() && place < self.waiting.len() {
            self.waiting[place].push(constructor)?;
            let missing = self.pending[constructor].missing;
            self.pending[constructor].missing = missing.saturating_add(1);
        }
        Ok(())
    }

    // The type of a constructor that waits for nothing is in the order.
    fn settle(&mut self, constructor: usize) -> Result<(), NoMemory> {
        match self.pending.get(constructor) {
            Some(found) if found.missing == 0 => {
                let owner = found.owner;
                self.put(owner)
            }
            _ => Ok(()),
        }
    }

    fn put(&mut self, place: usize) -> Result<(), NoMemory> {
        if place < self.is_ordered.len() && !self.is_ordered[place] {
            self.is_ordered[place] = true;
            self.order.push(place)?;
        }
        Ok(())
    }

    // What waits for a data type goes on.
    fn go_on(&mut self, alloc: Global, place: usize) -> Result<(), NoMemory> {
        if place < self.waiting.len() {
            let waiting = mem::replace(&mut self.waiting[place], Vec::new(alloc));
            for constructor in &waiting {
                self.meet(*constructor);
                self.settle(*constructor)?;
            }
        }
        Ok(())
    }

    // One of the mentions that a constructor waits for is met.
    fn meet(&mut self, constructor: usize) {
        if constructor < self.pending.len() {
            let missing = self.pending[constructor].missing;
            self.pending[constructor].missing = missing.saturating_sub(1);
        }
    }
}
