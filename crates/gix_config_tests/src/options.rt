//! Options of loads and of includes.

use gitconf_sources::{FileFault, Stage};
use gitconf_tests::users::homes;
use gix_config::file::includes::conditional;
use gix_config::file::{includes, init};
use gix_config::path::interpolate;
use std::test::Fail;

/// How deep the options go, and what they refuse: what goes deeper, a shorthand that stands for nothing, and a path
/// relative to the directory of a file that has none.
fn told(options: &includes::Options<'_>) -> (u8, bool, bool, bool) {
    (
        options.max_depth,
        options.err_on_max_depth_exceeded,
        options.err_on_interpolation_failure,
        options.err_on_missing_config_path,
    )
}

/// Whether there are a directory of the installation, one of the calling user, and a table of users; then whether there
/// are a directory of the repository, and a branch.
fn known(options: &includes::Options<'_>) -> (bool, bool, bool, bool, bool) {
    (
        options.interpolate.git_install_dir.is_some(),
        options.interpolate.home_dir.is_some(),
        options.interpolate.home_for_user.is_some(),
        options.conditional.git_dir.is_some(),
        options.conditional.branch_name.is_some(),
    )
}

#[test]
fn options_that_follow_nothing(rt: HostRuntime) {
    let loads = init::Options::default();
    assert!(rt; !loads.lossy && !loads.ignore_io_errors);
    for options in [
        includes::Options::no_follow(),
        includes::Options::default(),
        loads.includes,
    ] {
        assert!(rt; told(&options) == (0, false, false, false));
        assert!(rt; known(&options) == (false, false, false, false, false));
        assert!(rt; told(&options.strict()) == (0, true, true, true));
    }
}

#[test]
fn options_that_follow(rt: HostRuntime) -> Result<(), Fail> {
    let homes = homes(rt.alloc(), &[("u", "/u")])?;
    let real: Result<&str, FileFault> = Err(FileFault {
        stage: Stage::Open,
        not_found: true,
    });
    let conditions = conditional::Context {
        git_dir: Some(conditional::GitDir {
            path: "/r/.git",
            real,
        }),
        branch_name: Some("refs/heads/a"),
    };
    let folders = interpolate::Context {
        git_install_dir: Some("/i"),
        home_dir: None,
        home_for_user: Some(&homes),
    };
    let options = includes::Options::follow(folders, conditions);
    assert!(rt; told(&options) == (10, true, false, true));
    assert!(rt; known(&options) == (true, false, true, true, true));
    assert!(rt; options.conditional.branch_name == Some("refs/heads/a"));
    let options = options
        .strict()
        .interpolate_with(interpolate::Context::default());
    assert!(rt; told(&options) == (10, true, true, true));
    assert!(rt; known(&options) == (false, false, false, true, true));
    Ok(())
}

#[test]
fn options_without_conditions(rt: HostRuntime) -> Result<(), Fail> {
    let homes = homes(rt.alloc(), &[("u", "/u")])?;
    let options = includes::Options::follow_without_conditional(Some("/h"), Some(&homes));
    assert!(rt; told(&options) == (10, true, false, true));
    assert!(rt; known(&options) == (false, true, true, false, false));
    assert!(rt; options.interpolate.home_dir == Some("/h"));
    Ok(())
}
