// What follows from the laws of the interfaces, as theorems: each holds by the check alone, and its call does nothing.
ghost use Rattle.fields.specs.Consequences.{FieldFacts, LevelFacts, ExtensionFacts};

use super::extension::ExtensionField;
use super::field::Field;
use super::tower::TowerLevel;

pub fn field_facts<F: Field>()
    ensures { FieldFacts F.Field.ops }
{}

pub fn level_facts<F: TowerLevel>()
    ensures { LevelFacts F.Field.ops F.TowerLevel.level }
{}

pub fn extension_facts<F: Field, D, EF: ExtensionField<F, D>>()
    ensures { ExtensionFacts F.Field.ops EF.Field.ops EF.ExtensionField.over }
{}
