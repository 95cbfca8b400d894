//! The version of the library.
ghost use Rattle.std.specs.Prelude.{◌≡◌, codes};

/// Tells the version of the library that a program runs with, such as `0.1.0`. That of the header is GIX_CONFIG_VERSION. The text stays for
/// good.
#[unsafe(no_mangle)]
pub extern "C" fn gix_config_version(text: &mut &'static [u8])
    ensures { text.new.now ≡ codes "0.1.0" }
{
    *text = b"0.1.0";
}
