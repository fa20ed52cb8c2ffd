// Quotas and charges of the cabins that share a table (document 02, W5).

#![tactic(auto)]

ghost use Rattle.std.specs.Prelude.{◌≡◌, ◌+◌, ◌-◌, ◌≤◌, ◌<◌};
ghost use Rattle.finite.specs.Below.{total};
ghost use Rattle.table.specs.Answer.{refused};
ghost use Rattle.table.specs.Table.{cabin_count};
ghost use Rattle.table.specs.Cabins.{guarantee_of, limit_of, quotas_fit, sole_quotas, within_limits};
ghost use Rattle.words.specs.Words.{table_of};
ghost use Rattle.cabins.specs.Shares.{given, share, shares_fit, share_refusal};

use table::Refusal;
use words::{CABINS, QUOTAS, QUOTAS_FROM, WORDS};

// The quotas of a table.
pub fn quotas_of(t: &[u16; WORDS]) -> [u16; QUOTAS]
    ensures { result ≡ (table_of t.now).quotas }
{
    let mut quotas = [0u16; QUOTAS];
    quotas.copy_from_slice(&t[QUOTAS_FROM..]);
    quotas
}

// The list that gives all steps of a capacity but step 0 to cabin 0.
pub fn sole_quotas(capacity: u16) -> [u16; QUOTAS]
    ensures { result ≡ sole_quotas capacity }
{
    let most = capacity.saturating_sub(1);
    let mut quotas = [0u16; QUOTAS];
    quotas[0] = most;
    quotas[1] = most;
    quotas
}

// The guarantee of cabin c.
fn guarantee_in(quotas: &[u16; QUOTAS], c: usize) -> u16
    requires { c < cabin_count }
    ensures { result ≡ guarantee_of quotas.now c }
{
    quotas[c * 2]
}

// The limit of cabin c.
fn limit_in(quotas: &[u16; QUOTAS], c: usize) -> u16
    requires { c < cabin_count }
    ensures { result ≡ limit_of quotas.now c }
{
    quotas[c * 2 + 1]
}

// Whether a list suits a capacity: no guarantee is above its limit, and together they leave room for step 0. The sum has 32 bits.
pub fn quotas_fit(capacity: u16, quotas: &[u16; QUOTAS]) -> bool
    requires { 1 ≤ capacity }
    ensures { result ≡ quotas_fit capacity quotas.now }
{
    let mut sum = 0u32;
    // The guarantees of the cabins below c are within their limits, and sum is their total.
    for c in 0..CABINS {
        let guarantee = guarantee_in(quotas, c);
        if limit_in(quotas, c) < guarantee {
            return false;
        }
        sum += u32::from(guarantee);
    }
    sum < u32::from(capacity)
}

// The cabins' shares together: of each the larger of its guarantee and its charge.
fn shared(quotas: &[u16; QUOTAS], charges: &[u16; CABINS]) -> u32
    ensures sum { result ≡ total cabin_count (share quotas.now (given charges.now)) }
    ensures most { result ≤ 524280 }
{
    let mut sum = 0u32;
    // sum is the shares of the cabins below c.
    for c in 0..CABINS {
        sum += u32::from(guarantee_in(quotas, c).max(charges[c]));
    }
    sum
}

// Whether no cabin is charged more than its limit.
fn within_limits(quotas: &[u16; QUOTAS], charges: &[u16; CABINS]) -> bool
    ensures { result ≡ within_limits quotas.now (given charges.now) }
{
    (0..CABINS).all(|c| charges[c] <= limit_in(quotas, c))
}

// Whether charges suit a capacity and its quotas.
pub fn shares_fit(capacity: u16, quotas: &[u16; QUOTAS], charges: &[u16; CABINS]) -> bool
    ensures { result ≡ shares_fit capacity quotas.now (given charges.now) }
{
    within_limits(quotas, charges) && shared(quotas, charges) < u32::from(capacity)
}

// Whether an add for cabin c has its share: it is refused at its limit, or beyond its guarantee with nothing left over.
pub fn check_share(
    capacity: u16,
    quotas: &[u16; QUOTAS],
    charges: &[u16; CABINS],
    c: usize,
) -> Result<(), Refusal>
    requires { c < cabin_count }
    ensures { refused result ≡ share_refusal capacity quotas.now (given charges.now) c }
{
    let charge = charges[c];
    if charge == limit_in(quotas, c) {
        return Err(Refusal::CabinAtLimit);
    }
    if charge < guarantee_in(quotas, c) {
        return Ok(());
    }
    if u32::from(capacity) <= shared(quotas, charges) + 1 {
        return Err(Refusal::StepsReserved);
    }
    Ok(())
}
