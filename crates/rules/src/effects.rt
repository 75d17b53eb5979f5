// What the settings commands and the clock make of a controller's settings.
#![tactic(auto, using(crate::proofs::Laws::six_whole), unfolding(crate::specs::Effects::settings_effect, crate::specs::Effects::settings_timer, crate::specs::Effects::settings_bondable, crate::specs::Effects::controller_of, crate::specs::Effects::controller_with, model::specs::Rules::on, model::specs::Rules::set_powered, model::specs::Rules::set_discoverable, model::specs::Rules::set_connectable, model::specs::Rules::set_low_energy, model::specs::Rules::set_bredr, model::specs::Rules::set_static_address, model::specs::State::settings_of, model::specs::State::no_timer, model::specs::State::with_timer, model::specs::State::with_powered, model::specs::State::with_connectable, model::specs::State::with_low_energy, model::specs::State::with_bredr, model::specs::State::with_static_address, model::specs::State::with_schedule, model::specs::State::with_advertising, model::specs::Octets::octet))]

ghost use Rattle.std.specs.Prelude.{◌≡◌, length};
ghost use Rattle.model.specs.State as State;
ghost use Rattle.model.specs.Rules.{set_powered, set_discoverable, set_connectable, set_low_energy, set_bredr, set_static_address};
ghost use Rattle.rules.specs.Effects.{settings_effect, settings_timer, settings_bondable};

use model::{HostSettings, RadioSettings, Settings, Timer};

// Not discoverable, and no timer.
pub fn no_timer() -> Timer
    ensures { result ≡ State.no_timer }
{
    Timer {
        discoverable: false,
        seconds: 0,
    }
}

// The settings with another timer.
pub fn with_timer(m: Settings, t: Timer) -> Settings
    ensures { result ≡ settings_timer m t }
{
    Settings {
        host: HostSettings { timer: t, ..m.host },
        ..m
    }
}

// The settings with bondable on or off.
pub fn with_bondable(m: Settings, b: bool) -> Settings
    ensures { result ≡ settings_bondable m b }
{
    Settings {
        host: HostSettings {
            bondable: b,
            ..m.host
        },
        ..m
    }
}

// What Set Powered makes of the settings: with power goes a discoverable that a timer limits.
pub fn effect_powered(m: Settings, ps: &[u8]) -> Settings
    requires { length ps.now ≡ 1 }
    ensures { result ≡ settings_effect set_powered m ps.now }
{
    let powered = ps[0] == 1;
    let d = Settings {
        radio: RadioSettings { powered, ..m.radio },
        ..m
    };
    if !powered && m.host.timer.seconds != 0 {
        return with_timer(d, no_timer());
    }
    d
}

// What Set Discoverable makes of the settings: the same for 1 and 2; without a timeout no timer runs.
pub fn effect_discoverable(m: Settings, ps: &[u8]) -> Settings
    requires { length ps.now ≡ 3 }
    ensures { result ≡ settings_effect set_discoverable m ps.now }
{
    let t = Timer {
        discoverable: ps[0] != 0,
        seconds: octets::u16_at(ps, 1) as u16,
    };
    with_timer(m, t)
}

// What Set Connectable makes of the settings: when it goes off, discoverable and the timer go too.
pub fn effect_connectable(m: Settings, ps: &[u8]) -> Settings
    requires { length ps.now ≡ 1 }
    ensures { result ≡ settings_effect set_connectable m ps.now }
{
    let connectable = ps[0] == 1;
    let d = Settings {
        radio: RadioSettings {
            connectable,
            ..m.radio
        },
        ..m
    };
    if connectable {
        d
    } else {
        with_timer(d, no_timer())
    }
}

// What Set Low Energy makes of the settings.
pub fn effect_low_energy(m: Settings, ps: &[u8]) -> Settings
    requires { length ps.now ≡ 1 }
    ensures { result ≡ settings_effect set_low_energy m ps.now }
{
    Settings {
        radio: RadioSettings {
            low_energy: ps[0] == 1,
            ..m.radio
        },
        ..m
    }
}

// What Set BR/EDR makes of the settings: when it goes off, discoverable goes too.
pub fn effect_bredr(m: Settings, ps: &[u8]) -> Settings
    requires { length ps.now ≡ 1 }
    ensures { result ≡ settings_effect set_bredr m ps.now }
{
    let bredr = ps[0] == 1;
    let d = Settings {
        radio: RadioSettings { bredr, ..m.radio },
        ..m
    };
    if bredr { d } else { with_timer(d, no_timer()) }
}

// What Set Static Address makes of the settings.
pub fn effect_static_address(m: Settings, ps: &[u8]) -> Settings
    requires { length ps.now ≡ 6 }
    ensures { result ≡ settings_effect set_static_address m ps.now }
{
    Settings {
        radio: RadioSettings {
            static_address: octets::six(ps, 0),
            ..m.radio
        },
        ..m
    }
}
