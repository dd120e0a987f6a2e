// The first number that is out of its range (FORMAT 11.8): the refusal that it gives, or none.
ghost use Rattle.std.specs.Prelude.{◌≡◌, ltb};
ghost use Rattle.query_answer.specs.Faults.{attribute_fault, relation_fault};

use refusal::Refusal;

// That of a prefix, by whether all its attributes are special.
pub fn attribute_fault(special: bool) -> Option<Refusal>
    ensures { result ≡ attribute_fault special }
{
    if special {
        None
    } else {
        Some(Refusal::Attribute)
    }
}

// That of a relation among `m`.
pub fn relation_fault(relation: u8, m: u8) -> Option<Refusal>
    ensures { result ≡ relation_fault (ltb relation m) }
{
    if relation < m {
        None
    } else {
        Some(Refusal::RelationNumber)
    }
}
