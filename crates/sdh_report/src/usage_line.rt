//! How `sdhring` is called.
ghost use Rattle.std.specs.Prelude.{◌≡◌};
ghost use Rattle.sdh_report.specs.Statuses.{usage};

/// Returns how `sdhring` is called, without a newline byte.
pub fn usage() -> &'static [u8]
    ensures { result.now ≡ usage }
{
    b"usage: sdhring run, check, drop NAME END, big NUMBER"
}
