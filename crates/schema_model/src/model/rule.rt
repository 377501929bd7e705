//! The rules of a model.
/// What a list of schemas must keep to be a model, in the order in which the rules are tried.
#[derive(Clone, Copy, Debug, PartialEq, Eq)]
pub enum Rule {
    /// At most 512 types, and at most 1,024 fields in each.
    TooMany,
    /// Each name and key path has at most 65,535 bytes of Java UTF.
    LongName,
    /// No two types have one name, and no two fields of a type.
    DuplicateName,
    /// No field is a FLOAT or a DOUBLE.
    FloatField,
    /// Each type that is named is there.
    UnknownType,
    /// No type's references lead into a cycle.
    CyclicModel,
    /// No type is more than 32 types deep.
    TooDeep,
    /// A primary key has a path, and each path of it resolves.
    BadPath,
}

impl Rule {
    ghost use Rattle.std.specs.Prelude.{◌≡◌};
    ghost use Rattle.schema_model.specs.Rule.{name_of_rule};

    /// The rule's name in an answer line.
    pub fn name(&self) -> &'static str
        ensures { result.now ≡ name_of_rule self.now }
    {
        match self {
            Rule::TooMany => "TooMany",
            Rule::LongName => "LongName",
            Rule::DuplicateName => "DuplicateName",
            Rule::FloatField => "FloatField",
            Rule::UnknownType => "UnknownType",
            Rule::CyclicModel => "CyclicModel",
            Rule::TooDeep => "TooDeep",
            Rule::BadPath => "BadPath",
        }
    }
}
