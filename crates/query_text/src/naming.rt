//! Variables and labels, which get their places by first appearance.
//!
//! `Names` keeps the names in a list, each once, and beside it a map from each name to its place there (`KnowsNames`). A list
//! only grows, so that the place of a name stays its place in all names of the text.
ghost use Rattle.std.specs.Prelude.{◌≡◌, [], IfOk, OnOk, Some, ◌++◌, List as Items, ℕ, map};
ghost use Rattle.query_text.specs.Meaning.{variables_of_node, labels_of_node, place_of};
ghost use Rattle.query_text.specs.Building.{KnowsNames, Stand, known_place, with_name, with_names, names_said, node_in, IsSlot};

use crate::token::Token;
use crate::token_text::name_of;
use crate::value::Value;
use base_core::{Text, Want};
use bgp_model::Slot;
use std::alloc::Global;
use std::collections::BTreeMap;

/// Names by first appearance, and the place of each of them.
#[derive(Debug, Drop)]
pub struct Names {
    pub list: Vec<Text>,
    pub places: BTreeMap<Text, u32>,
}

impl Names {
    pub fn new(alloc: Global) -> Names
        ensures none { result.list.items ≡ [] }
        ensures knows { KnowsNames result.list.items result.places }
    {
        Names {
            list: Vec::new(alloc),
            places: BTreeMap::new(alloc),
        }
    }

    /// The place of the name, the next one if it is new.
    pub fn place(&mut self, alloc: Global, name: Text) -> Result<u32, Want>
        requires { KnowsNames self.old.list.items self.old.places }
        ensures knows { OnOk result (KnowsNames self.new.list.items self.new.places) }
        ensures names { OnOk result (self.new.list.items ≡ with_name self.old.list.items name) }
        ensures place { IfOk result (λ place. known_place self.new.list.items name ≡ Some place) }
    {
        if let Some(place) = self.places.get(&name) {
            return Ok(*place);
        }
        let Ok(place) = u32::try_from(self.list.len()) else {
            return Err(Want::NoMemory);
        };
        self.places.insert(name.copy(alloc)?, place)?;
        self.list.push(name)?;
        Ok(place)
    }

    /// The places of the variables of these tokens.
    pub fn places_of(&mut self, alloc: Global, tokens: &[Token]) -> Result<Vec<u32>, Want>
        requires { KnowsNames self.old.list.items self.old.places }
        ensures knows { OnOk result (KnowsNames self.new.list.items self.new.places) }
        ensures names { OnOk result (self.new.list.items ≡ with_names self.old.list.items (names_said tokens.now)) }
        // These are their places whatever names follow.
        ensures places { IfOk result (λ places. (more : Items (Items ℕ)) → places.items ≡ map (place_of (self.new.list.items ++ more)) (names_said tokens.now)) }
    {
        let mut places = Vec::new(alloc);
        'tokens: for token in tokens {
            places.push(self.place(alloc, name_of(alloc, token.characters)?)?)?;
        }
        Ok(places)
    }
}

/// The variables and the labels of a query.
#[derive(Debug, Drop)]
pub struct Scope {
    pub variables: Names,
    pub labels: Names,
}

impl Scope {
    pub fn new(alloc: Global) -> Scope
        ensures variables { result.variables.list.items ≡ [] }
        ensures labels { result.labels.list.items ≡ [] }
        ensures stand { Stand result }
    {
        Scope {
            variables: Names::new(alloc),
            labels: Names::new(alloc),
        }
    }

    /// The slot that holds the value.
    pub fn slot(&mut self, alloc: Global, value: Value) -> Result<Slot, Want>
        requires { Stand self.old }
        ensures stand { OnOk result (Stand self.new) }
        ensures variables { OnOk result (self.new.variables.list.items ≡ with_names self.old.variables.list.items (variables_of_node (node_in value))) }
        ensures labels { OnOk result (self.new.labels.list.items ≡ with_names self.old.labels.list.items (labels_of_node (node_in value))) }
        ensures slot { IfOk result (IsSlot self.new.variables.list.items self.new.labels.list.items (node_in value)) }
    {
        match value {
            Value::Variable(name) => Ok(Slot::Var(self.variables.place(alloc, name)?)),
            Value::Label(label) => Ok(Slot::Label(self.labels.place(alloc, label)?)),
            Value::Constant(term) => Ok(Slot::Fixed(term)),
        }
    }
}
