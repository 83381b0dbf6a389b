//! The attributes of a message, found in one pass over its element's list.

ghost use Rattle.std.specs.Prelude.{◌≡◌, ◌∷◌, [], IsTrue, map};
ghost use Rattle.hermes_horizontal.specs.Fields.{placed, found_in, found_of, fresh, are_apart, are_fresh, board_fields, board_found};

use crate::attr::Attr;
use crate::field::Field;
use hermes_element::{LentAttribute, LentAttributes};

/// Finds the fields' attributes, in one pass over an element's list.
fn find<'a>(attributes: LentAttributes<'a>, fields: &mut [Field<'a>])
    requires apart { IsTrue (are_apart fields.old) }
    requires fresh { IsTrue (are_fresh fields.old) }
    ensures { fields.new ≡ map (found_in attributes.entry) fields.old }
{
    let mut rest = attributes.into_list();
    while let Some(attribute) = rest.pop() {
        place(attribute, fields);
    }
}

fn place<'a>(attribute: LentAttribute<'a>, fields: &mut [Field<'a>])
    ensures { fields.new ≡ placed attribute.entry fields.old }
{
    for field in fields.iter_mut() {
        if attribute.name.bytes() == field.attr.text().as_bytes() {
            field.found = Some(attribute);
            return;
        }
    }
}

/// The attribute of this name.
pub fn find_one(attributes: LentAttributes<'_>, attr: Attr) -> [Field<'_>; 1]
    ensures { result ≡ found_of attributes.entry attr ∷ [] }
{
    let mut fields = [Field::of(attr)];
    find(attributes, fields.as_mut_slice());
    fields
}

/// The attributes of two names.
pub fn find_two<'a>(attributes: LentAttributes<'a>, a: Attr, b: Attr) -> [Field<'a>; 2]
    requires { IsTrue (are_apart (fresh a ∷ fresh b ∷ [])) }
    ensures { result ≡ found_of attributes.entry a ∷ found_of attributes.entry b ∷ [] }
{
    let mut fields = [Field::of(a), Field::of(b)];
    find(attributes, fields.as_mut_slice());
    fields
}

/// The attributes of three names.
pub fn find_three<'a>(attributes: LentAttributes<'a>, a: Attr, b: Attr, c: Attr) -> [Field<'a>; 3]
    requires { IsTrue (are_apart (fresh a ∷ fresh b ∷ fresh c ∷ [])) }
    ensures { result
        ≡ found_of attributes.entry a ∷ found_of attributes.entry b ∷ found_of attributes.entry c ∷
        [] }
{
    let mut fields = [Field::of(a), Field::of(b), Field::of(c)];
    find(attributes, fields.as_mut_slice());
    fields
}

/// The attributes of four names.
pub fn find_four<'a>(
    attributes: LentAttributes<'a>,
    a: Attr,
    b: Attr,
    c: Attr,
    d: Attr,
) -> [Field<'a>; 4]
    requires { IsTrue (are_apart (fresh a ∷ fresh b ∷ fresh c ∷ fresh d ∷ [])) }
    ensures { result
        ≡ found_of attributes.entry a ∷ found_of attributes.entry b ∷ found_of attributes.entry c ∷
        found_of attributes.entry d ∷ [] }
{
    let mut fields = [Field::of(a), Field::of(b), Field::of(c), Field::of(d)];
    find(attributes, fields.as_mut_slice());
    fields
}

/// The attributes of five names.
pub fn find_five<'a>(
    attributes: LentAttributes<'a>,
    a: Attr,
    b: Attr,
    c: Attr,
    d: Attr,
    e: Attr,
) -> [Field<'a>; 5]
    requires { IsTrue (are_apart (fresh a ∷ fresh b ∷ fresh c ∷ fresh d ∷ fresh e ∷ [])) }
    ensures { result
        ≡ found_of attributes.entry a ∷ found_of attributes.entry b ∷ found_of attributes.entry c ∷
        found_of attributes.entry d ∷ found_of attributes.entry e ∷ [] }
{
    let mut fields = [
        Field::of(a),
        Field::of(b),
        Field::of(c),
        Field::of(d),
        Field::of(e),
    ];
    find(attributes, fields.as_mut_slice());
    fields
}

/// The attributes that tell of a board, in the order of their row of the table.
pub fn find_board(attributes: LentAttributes<'_>) -> [Field<'_>; 16]
    ensures { result ≡ board_found attributes.entry }
{
    let mut fields = board_fields();
    find(attributes, fields.as_mut_slice());
    fields
}

fn board_fields<'a>() -> [Field<'a>; 16]
    ensures { result ≡ board_fields }
{
    [
        Field::of(Attr::BoardId),
        Field::of(Attr::BoardIdCreatedBy),
        Field::of(Attr::FailedBoard),
        Field::of(Attr::FlippedBoard),
        Field::of(Attr::ProductTypeId),
        Field::of(Attr::TopBarcode),
        Field::of(Attr::BottomBarcode),
        Field::of(Attr::Length),
        Field::of(Attr::Width),
        Field::of(Attr::Thickness),
        Field::of(Attr::ConveyorSpeed),
        Field::of(Attr::TopClearanceHeight),
        Field::of(Attr::BottomClearanceHeight),
        Field::of(Attr::Weight),
        Field::of(Attr::WorkOrderId),
        Field::of(Attr::BatchId),
    ]
}
