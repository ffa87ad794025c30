// The lent record: whether it is valid and a list of samples is one for it, setup, outputs and causes; and whether a buffer's marks are good.

#![tactic(auto)]

ghost use Rattle.std.specs.Prelude.{◌≡◌, true, map, ◌+◌, ◌*◌, ◌≤◌, ◌<◌, length, take, drop};
ghost use Rattle.module_rules.specs.Slots.{slot_size};
ghost use Rattle.types_rules.specs.Types.{slots, powered, outputs};
ghost use Rattle.net_rules.specs.Record.{record_size, slots_at, ok_slots, modules_in, net_in, put_modules, valid, chain_most};
ghost use Rattle.net_rules.specs.Calls.{all_known, all_marks, fresh, of_type, list_size, all_typed, all_in_range, outputs_at, cause_at};

// The slot at a place.
fn slot(net: &[u8], place: usize) -> &[u8]
    requires { slots_at + slot_size * place + slot_size ≤ length net.now }
    ensures size { length result.now ≡ slot_size }
    ensures value { result.now ≡ take slot_size (drop (slots_at + slot_size * place) net.now) }
{
    let at = net_rules::SLOTS_AT + module_rules::SLOT_LEN * place;
    &net[at..at + module_rules::SLOT_LEN]
}

// Whether the first n slots are valid.
fn is_each_ok(net: &[u8], n: usize) -> bool
    requires { slots_at + slot_size * n ≤ length net.now }
    ensures { result ≡ ok_slots slots n (drop slots_at net.now) }
{
    for place in 0..n {
        if !types_dispatch::is_ok(slot(net, place)) {
            return false;
        }
    }
    true
}

// Whether a record is valid: the list for refusal 16.
#[tactic(auto, unfolding(net_rules::specs::Record::valid))]
pub fn is_valid(net: &[u8]) -> bool
    ensures { result ≡ valid slots net.now }
{
    if net.len() != net_rules::NET_LEN {
        return false;
    }
    let n = net[net_rules::COUNT_AT] as usize;
    (1..=net_rules::CHAIN_MOST).contains(&n)
        && net_receiver::is_receiver_ok(net)
        && is_each_ok(net, n)
}

// Whether the module at a place is of this type, which its slot's first byte tells; beyond the chain there is none.
pub fn is_of_type(net: &[u8], place: usize, t: u8) -> bool
    requires { valid slots net.now ≡ true }
    ensures { result ≡ of_type t (net_in slots net.now) place }
{
    let n = net_receiver::chain_len(net) as usize;
    place < n && slot(net, place)[0] == t
}

// Whether each of n samples begins with the type byte of its module's slot.
fn is_each_typed(net: &[u8], n: usize, samples: &[u8]) -> bool
    requires { (slots_at + slot_size * n ≤ length net.now) × (ok_slots slots n (drop slots_at net.now) ≡ true) × (length samples.now ≡ list_size n) }
    ensures { result ≡ all_typed (modules_in slots n (drop slots_at net.now)) samples.now }
{
    for place in 0..n {
        if samples[module_rules::SAMPLE_LEN * place] != slot(net, place)[0] {
            return false;
        }
    }
    true
}

// Whether each sample of a list for this network is of its module's type.
pub fn is_typed(net: &[u8], samples: &[u8]) -> bool
    requires { (valid slots net.now ≡ true) × (length samples.now ≡ list_size (length (net_in slots net.now).modules)) }
    ensures { result ≡ all_typed (net_in slots net.now).modules samples.now }
{
    let n = net_receiver::chain_len(net) as usize;
    is_each_typed(net, n, samples)
}

// Whether each of n samples has its fields in range.
pub fn is_in_range(samples: &[u8], n: usize) -> bool
    requires { length samples.now ≡ list_size n }
    ensures { result ≡ all_in_range n samples.now }
{
    for place in 0..n {
        let from = module_rules::SAMPLE_LEN * place;
        if !types_dispatch::is_sample_ok(&samples[from..from + module_rules::SAMPLE_LEN]) {
            return false;
        }
    }
    true
}

// What the board drives for the module at a place.
pub fn outputs(net: &[u8], place: usize) -> [u8; 8]
    requires { (valid slots net.now ≡ true) × (place < length (net_in slots net.now).modules) }
    ensures { result ≡ outputs_at (net_in slots net.now) place }
{
    types_dispatch::outputs(slot(net, place))
}

// The last cause of the module at a place.
pub fn cause(net: &[u8], place: usize) -> u8
    requires { (valid slots net.now ≡ true) × (place < length (net_in slots net.now).modules) }
    ensures { result ≡ cause_at (net_in slots net.now) place }
{
    module_station::station_in(slot(net, place)).cause
}

// Whether every mark of a buffer is 0 or 1. All are looked at, which compiles to few tests.
pub fn is_all_marks(marks: &[u8]) -> bool
    ensures { result ≡ all_marks marks.now }
{
    let mut good = true;
    for mark in marks {
        good &= *mark <= 1;
    }
    good
}

// Whether all types are known.
pub fn is_all_known(types: &[u8]) -> bool
    ensures { result ≡ all_known types.now }
{
    types.iter().all(|t| types_table::is_known(*t as u32))
}

// Modules of the given types at power-up, put into the slots. It goes by places: once a loop over the slots' own borrows (`chunks_exact_mut`) is over,
// a proof knows the record's length and not its bytes.
fn power_up_each(net: &mut [u8], types: &[u8])
    requires { slots_at + slot_size * length types.now ≤ length net.old }
    ensures { net.new ≡ put_modules slots (map powered types.now) slots_at net.old }
{
    for (place, t) in types.iter().enumerate() {
        let at = net_rules::SLOTS_AT + module_rules::SLOT_LEN * place;
        types_dispatch::power_up(&mut net[at..at + module_rules::SLOT_LEN], *t);
    }
}

// Setup: an idle receiver, which is all zeros, and a chain of the given types, whatever the record held before.
pub fn set_up(net: &mut [u8], types: &[u8])
    requires { (length net.old ≡ record_size) × (length types.now ≤ chain_most) }
    ensures { net.new ≡ fresh types.now }
{
    net.fill(0);
    net[net_rules::COUNT_AT] = types.len() as u8;
    power_up_each(net, types);
}
