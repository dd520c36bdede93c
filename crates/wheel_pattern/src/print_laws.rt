//! A law of printed wheel files. The function does nothing; its contract says the law.
ghost use Rattle.wheel_pattern.specs.Printed.{WrittenWheelsReadBack};

/// What is written of a wheel is read back as that wheel.
pub fn written_wheels_read_back()
    ensures { WrittenWheelsReadBack }
{}
