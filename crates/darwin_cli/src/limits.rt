//! The numbers of the profile and of the options.
//!
//! Code, contracts and definitions have them by name. Here each name is tied to its number, so that another
//! number is refused.
ghost use Rattle.darwin_cli.specs.Numbers.{AreDefaults, AreFileLimits, AreGreatestValues, IsMadeSize};

/// The numbers that a file, the options and a made problem are held to.
pub fn numbers()
    ensures file { AreFileLimits }
    ensures greatest { AreGreatestValues }
    ensures defaults { AreDefaults }
    ensures made { IsMadeSize }
{}
