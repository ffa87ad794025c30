// The table of module types as functions: which numbers there are, how many bytes each item of a type has, and which item bytes there are.

#![tactic(auto)]

ghost use Rattle.std.specs.Prelude.{◌≡◌, true, false, MatchResult};
ghost use Rattle.types_rules.specs.Table.{rules_of};
ghost use Rattle.types_rules.specs.Types.{known, type_in, sizes_of, shows_of};
ghost use Rattle.types_table.specs.Known.{type_meant};

// A module type that there is.
#[derive(Clone, Copy)]
pub enum ModuleType {
    Servo,
    Io,
    Stepper,
}

// The number is no type's.
#[derive(Clone, Copy)]
pub struct UnknownType;

impl TryFrom<u32> for ModuleType {
    type Error = UnknownType;

    ghost try_from_gives = { λ number outcome. MatchResult outcome
        (λ t. (known number ≡ true) × (type_in number ≡ type_meant t))
        (λ _. known number ≡ false) };

    fn try_from(number: u32) -> Result<ModuleType, UnknownType> {
        match u8::try_from(number) {
            Ok(servo_rules::TYPE) => Ok(ModuleType::Servo),
            Ok(inout_rules::TYPE) => Ok(ModuleType::Io),
            Ok(stepper_rules::TYPE) => Ok(ModuleType::Stepper),
            _ => Err(UnknownType),
        }
    }
}

impl ModuleType {
    // How many bytes each item has.
    pub fn sizes(self) -> [u8; 8]
        ensures { result ≡ (rules_of (type_meant self)).sizes }
    {
        match self {
            ModuleType::Servo => servo_rules::SIZES,
            ModuleType::Io => inout_rules::SIZES,
            ModuleType::Stepper => stepper_rules::SIZES,
        }
    }

    // Of a servo and of an I/O module there is every item byte.
    pub fn is_shown(self, items: u8) -> bool
        ensures { result ≡ (rules_of (type_meant self)).shows items }
    {
        match self {
            ModuleType::Servo => true,
            ModuleType::Io => true,
            ModuleType::Stepper => stepper_parse::is_shown(items),
        }
    }
}

// Here and below any number may be asked, as C hands it over.
pub fn is_known(t: u32) -> bool
    ensures { result ≡ known t }
{
    ModuleType::try_from(t).is_ok()
}

pub fn sizes_of(t: u32) -> [u8; 8]
    ensures { result ≡ sizes_of t }
{
    ModuleType::try_from(t)
        .unwrap_or(ModuleType::Stepper)
        .sizes()
}

pub fn is_shown(t: u32, items: u8) -> bool
    ensures { result ≡ shows_of t items }
{
    ModuleType::try_from(t)
        .unwrap_or(ModuleType::Stepper)
        .is_shown(items)
}
