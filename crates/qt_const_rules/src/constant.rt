ghost use Rattle.std.specs.Prelude.{◌≡◌, ◌^◌, ◌<◌, IsTrue, IfOk, unsigned_abs};
ghost use Rattle.qt_value.specs.Types.{has_size, width_of};
ghost use Rattle.qt_value.specs.declared.constant.ConstValue.TheVariants as form;
ghost use Rattle.qt_const_rules.specs.Answers.{truth_of_constant, whole_number};

use crate::fault::ConstFault;
use qt_value::constant::ConstValue;
use qt_value::types::ValueType;
use qt_value::value::Value;

/// The number of a whole value: a bool, a bit register, an int or a uint. `Type` where it is none.
pub fn whole_number(constant: ConstValue) -> Result<i128, ConstFault>
    ensures value { result ≡ whole_number constant }
    ensures small { IfOk result (λ z. unsigned_abs z < 2 ^ 64) }
{
    match constant {
        ConstValue::Value(value) => number_of(value),
        ConstValue::Phase(_) => Err(ConstFault::Type),
    }
}

fn number_of(value: Value) -> Result<i128, ConstFault>
    ensures value { result ≡ whole_number (form.Value value) }
    ensures small { IfOk result (λ z. unsigned_abs z < 2 ^ 64) }
{
    if value.kind().is_whole() {
        Ok(value.number())
    } else {
        Err(ConstFault::Type)
    }
}

/// Whether a whole value isn't 0. `Type` where it is none.
pub fn truth_of(constant: ConstValue) -> Result<bool, ConstFault>
    ensures { result ≡ truth_of_constant constant }
{
    let number = whole_number(constant)?;
    Ok(number != 0)
}

/// The value of that type and those bits.
pub fn sized(kind: ValueType, bits: u64) -> Value
    requires sized { IsTrue (has_size kind) }
    requires fits { bits < 2 ^ width_of kind }
    ensures { result ≡ record { kind = kind; bits = bits } }
{
    Value::new(kind, bits).unwrap()
}
