// DEFAULT and RULE: what they set. The definitions are in the model.
ghost use Rattle.std.specs.Prelude.{◌≡◌};
ghost use Rattle.settings.specs.Bytes.{settings_with};
ghost use Rattle.request.specs.Meaning.{setting_means};
ghost use Rattle.engine.specs.Configured.{Settable, configured_by};

use fields::Period;
use model::Mode;
use request::Setting;
use settings::State;

// Sets what DEFAULT or RULE sets: the one in the state that is returned, the other in the entries.
pub fn configured(s: State, entries: &mut [u8], line: &[u8], setting: Setting) -> State
    requires { Settable line.now s entries.old setting }
    ensures { settings_with result entries.new ≡ configured_by (settings_with s entries.old) (setting_means line.now setting) }
{
    match setting {
        Setting::Default(mode, period) => State {
            mode: mode.map_or(0, Mode::number),
            count: period.map_or(0, Period::count),
            unit: period.map_or(0, Period::unit),
            ..s
        },
        Setting::Rule(i, prefix, current, noncurrent) => {
            settings::set_rule(
                entries,
                i as usize,
                text::part(line, prefix),
                current,
                noncurrent,
            );
            s
        }
    }
}
