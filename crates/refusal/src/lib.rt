// The refusals by name, and their numbers (FORMAT 8.1).
#![tactic(auto)]

ghost use Rattle.std.specs.Prelude.{◌≡◌};
ghost use Rattle.refusal.specs.Number.{number_of};

#[derive(Clone, Copy)]
pub enum Refusal {
    // the file has fewer than two bytes
    HeaderTruncated = 1,
    // m is not 1 to 8
    RelationCount = 2,
    // n is not 1 to 64
    NodeCount = 3,
    // the file ends before a node, or within one
    NodeTruncated = 4,
    // the map is none of the five
    NodeMap = 5,
    // the code is none of its map's
    OperatorCode = 6,
    // the relation is m or more
    RelationNumber = 7,
    // the operand is the node itself or a later one
    Operand = 8,
    // an attribute is not 1 to 15, or bit 0 of a set stands
    Attribute = 9,
    // bytes follow the last node
    NodesFollowed = 10,
    // the node asked for is n or more
    NodeNumber = 11,
    // the work space has fewer than 1,024 n bytes
    WorkSpace = 12,
    // a result slice is too short
    ResultSlice = 13,
    // a schema or an instantiation ends too early
    InputTruncated = 14,
    // a count byte is 0
    CountZero = 15,
    // a listed attribute is below 16, or does not rise
    ListedAttribute = 16,
    // bytes follow a schema or an instantiation
    InputFollowed = 17,
    // there are more than 255 different ordinary attributes
    TooManyAttributes = 18,
    // two lists of an instantiation share an attribute
    RepeatedAttribute = 19,
    // a bit stands that is no type variable
    TypeVariable = 20,
    // a special attribute's subset is not allowed in its column
    SpecialSubset = 21,
    // a text is no query
    QuerySyntax = 22,
    // a query's text has more than 512 bytes
    QueryLength = 23,
    // a query has more than 64 nodes
    QueryNodes = 24,
    // a relation's record is empty
    EmptyRecord = 25,
    // the image of an instantiation leaves a relation empty
    EmptyImage = 26,
    // Edit's result slice has fewer than 322 bytes
    EditSlice = 27,
}

impl Refusal {
    // The number of FORMAT 8.1.
    pub fn number(self) -> u8
        ensures { result ≡ number_of self }
    {
        self as u8
    }
}
