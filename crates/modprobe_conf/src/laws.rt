//! What holds of every configuration.

ghost use Rattle.modprobe_conf.specs.Configuration.{SettingsAreOfLines};

/// What a configuration says of a name is what the lines of that name say, in file order.
pub fn settings_are_of_lines()
    ensures { SettingsAreOfLines }
{}
