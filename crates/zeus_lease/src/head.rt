//! The first lines of a script of leases.
ghost use Rattle.std.specs.Prelude.{◌≡◌, ◌≤◌, ◌<◌, IfOk};
ghost use Rattle.zeus_lease.specs.Reading.{number_after, version_after};

use script_lang::Parts;
use zeus_model::Kind;

/// The line of the version.
#[tactic(auto, unfolding(crate::specs::Reading::version_after))]
pub(crate) fn version_after(line: &mut Parts) -> Result<(), Kind>
    ensures { result ≡ version_after line.old }
{
    line.keyword(b"leases".as_slice())?;
    line.keyword(b"1".as_slice())?;
    line.end()
}

/// The number of a line that has this keyword and no more: from the lowest on and below the limit.
#[tactic(auto, unfolding(crate::specs::Reading::number_after))]
pub(crate) fn number_after(
    line: &mut Parts,
    keyword: &[u8],
    lowest: u64,
    limit: u64,
) -> Result<u64, Kind>
    ensures number { result ≡ number_after keyword.now lowest limit line.old }
    ensures range { IfOk result (λ n. (lowest ≤ n) × (n < limit)) }
{
    line.keyword(keyword)?;
    let number = line.number_in(lowest, limit)?;
    line.end()?;
    Ok(number)
}
