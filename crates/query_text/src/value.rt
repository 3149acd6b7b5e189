//! What stands in a position of a triple, by its texts and no longer by its tokens.
ghost use Rattle.std.specs.Prelude.{◌≡◌, IfOk};
ghost use Rattle.nt_text.specs.Cell.{xsd_string};
ghost use Rattle.query_text.specs.Grammar.{xsd_integer, xsd_decimal, xsd_boolean, rdf_type, literal_node};
ghost use Rattle.query_text.specs.Building.{node_said, node_in, tagged_node};

use crate::class::Declaration;
use crate::phase::Node;
use crate::token_text::{iri_of, label_of, lower_of, name_of, number_of, string_of, tag_of};
use base_core::{Text, Want};
use std::alloc::Global;
use term_core::Term;

/// What stands in a position of a triple.
#[derive(Debug, Drop)]
pub enum Value {
    /// A variable, by its name.
    Variable(Text),
    /// A blank node, by its label.
    Label(Text),
    Constant(Term),
}

/// What the node is, behind these declarations.
pub fn value_of(alloc: Global, declarations: &[Declaration], node: Node) -> Result<Value, Want>
    ensures { IfOk result (λ made. node_in made ≡ node_said declarations.now node.entry) }
{
    match node {
        Node::Variable(token) => Ok(Value::Variable(name_of(alloc, token.characters)?)),
        Node::Label(token) => Ok(Value::Label(label_of(alloc, token.characters)?)),
        Node::Iri(token) => Ok(Value::Constant(Term::Iri(iri_of(alloc, declarations, token)?))),
        Node::Type => Ok(Value::Constant(Term::Iri(rdf_type(alloc)?))),
        Node::Integer(token) => literal(number_of(alloc, token.characters)?, xsd_integer(alloc)?),
        Node::Decimal(token) => literal(number_of(alloc, token.characters)?, xsd_decimal(alloc)?),
        Node::Boolean(token) => literal(lower_of(alloc, token.characters)?, xsd_boolean(alloc)?),
        Node::String(token) => literal(string_of(alloc, token.characters)?, xsd_string(alloc)?),
        Node::Tagged { form, tag } => tagged(
            string_of(alloc, form.characters)?,
            tag_of(alloc, tag.characters)?,
        ),
        Node::Typed { form, datatype } => literal(
            string_of(alloc, form.characters)?,
            iri_of(alloc, declarations, datatype)?,
        ),
    }
}

fn literal(form: Text, datatype: Text) -> Result<Value, Want>
    ensures { IfOk result (λ made. node_in made ≡ literal_node form datatype) }
{
    Ok(Value::Constant(Term::Literal { form, datatype }))
}

fn tagged(form: Text, tag: Text) -> Result<Value, Want>
    ensures { IfOk result (λ made. node_in made ≡ tagged_node form tag) }
{
    Ok(Value::Constant(Term::Tagged { form, tag }))
}

#[tactic(auto, unfolding(nt_text::specs::Cell::xsd_string))]
fn xsd_string(alloc: Global) -> Result<Text, Want>
    ensures { IfOk result (λ made. made ≡ xsd_string) }
{
    Text::of(alloc, "http://www.w3.org/2001/XMLSchema#string")
}

#[tactic(auto, unfolding(crate::specs::Grammar::xsd_integer))]
fn xsd_integer(alloc: Global) -> Result<Text, Want>
    ensures { IfOk result (λ made. made ≡ xsd_integer) }
{
    Text::of(alloc, "http://www.w3.org/2001/XMLSchema#integer")
}

#[tactic(auto, unfolding(crate::specs::Grammar::xsd_decimal))]
fn xsd_decimal(alloc: Global) -> Result<Text, Want>
    ensures { IfOk result (λ made. made ≡ xsd_decimal) }
{
    Text::of(alloc, "http://www.w3.org/2001/XMLSchema#decimal")
}

#[tactic(auto, unfolding(crate::specs::Grammar::xsd_boolean))]
fn xsd_boolean(alloc: Global) -> Result<Text, Want>
    ensures { IfOk result (λ made. made ≡ xsd_boolean) }
{
    Text::of(alloc, "http://www.w3.org/2001/XMLSchema#boolean")
}

/// What the verb `a` stands for.
#[tactic(auto, unfolding(crate::specs::Grammar::rdf_type))]
fn rdf_type(alloc: Global) -> Result<Text, Want>
    ensures { IfOk result (λ made. made ≡ rdf_type) }
{
    Text::of(alloc, "http://www.w3.org/1999/02/22-rdf-syntax-ns#type")
}
