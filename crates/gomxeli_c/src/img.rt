// The calls of the filter image. Each contract is the image's own definition.
ghost use Rattle.std.specs.Prelude.{◌≡◌};
ghost use Rattle.state.specs.Outcome.{answer};
ghost use Rattle.filter_image.specs.Image.{bytes, opening, add_subject, remove_subject_range, has_subject};
ghost use Rattle.gomxeli.specs.Answers.{answered, done, flag};

#[unsafe(no_mangle)]
pub extern "C" fn gomxeli_img_open(image: &mut [u8]) -> u64
    ensures { (result ≡ answered done (answer (opening image.old))) × (image.new ≡ bytes image.old (opening image.old)) }
{
    gomxeli::img::gomxeli_img_open(image)
}

#[unsafe(no_mangle)]
pub extern "C" fn gomxeli_img_add_subject(image: &mut [u8], subject: u32) -> u64
    ensures { (result ≡ answered done (answer (add_subject subject image.old))) × (image.new ≡ bytes image.old (add_subject subject image.old)) }
{
    gomxeli::img::gomxeli_img_add_subject(image, subject)
}

#[unsafe(no_mangle)]
pub extern "C" fn gomxeli_img_remove_subject_range(image: &mut [u8], first: u32, last: u32) -> u64
    ensures { (result ≡ answered done (answer (remove_subject_range «first» «last» image.old))) × (image.new ≡ bytes image.old (remove_subject_range «first» «last» image.old)) }
{
    gomxeli::img::gomxeli_img_remove_subject_range(image, first, last)
}

#[unsafe(no_mangle)]
pub extern "C" fn gomxeli_img_has_subject(image: &[u8], subject: u32) -> u64
    ensures { result ≡ answered flag (answer (has_subject subject image.now)) }
{
    gomxeli::img::gomxeli_img_has_subject(image, subject)
}
